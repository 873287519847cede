// Worked examples of number kinds and of the list of numbers.
#![tactic(auto)]

#[cfg(test)]
mod listing;
#[cfg(test)]
mod reading;
