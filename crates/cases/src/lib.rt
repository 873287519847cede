// What the lines of the test vectors are made of, and the count of those that differ.
#![tactic(auto)]

pub mod bytes;
pub mod fault;
pub mod numeral;
pub mod outcome;
pub mod parts;
pub mod tally;
