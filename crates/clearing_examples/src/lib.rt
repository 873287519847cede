// Worked examples of clearing, from a railway.
#![tactic(auto)]

mod into;
#[cfg(test)]
mod limits;
#[cfg(test)]
mod small_books;
#[cfg(test)]
mod views;
