// Worked examples of pattern files and dialects, from a railway.
#![tactic(auto)]

#[cfg(test)]
mod files;
#[cfg(test)]
mod matching;
