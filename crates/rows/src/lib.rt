// The ten bytes of a row in a book's file.
#![tactic(auto)]

mod fields;
pub mod reading;
pub mod writing;
