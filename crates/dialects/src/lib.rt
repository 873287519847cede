// Dialects of patterns: what a pattern number means, and the files that patterns are read from.
#![tactic(auto)]

pub mod dialect;
pub mod fault;
pub mod limits;
pub mod list;
pub mod masks;
mod matcher;
pub mod names;
pub mod pair;
pub mod reading;
pub mod syntax;
