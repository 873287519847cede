// The fields of a book's file, each tested as it is met.
#![tactic(auto)]

pub mod field;
pub mod items;
