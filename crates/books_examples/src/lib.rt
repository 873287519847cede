// Worked examples of books and their files, from a railway.
#![tactic(auto)]

#[cfg(test)]
mod files;
#[cfg(test)]
mod refusals;
#[cfg(test)]
mod sealing;
