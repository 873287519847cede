// The fields that every file is a row of, and parts of a file's bytes.
#![tactic(auto)]

pub mod field;
pub mod part;
