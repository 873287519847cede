// The text by which a planner reads a cleared book.
#![tactic(auto)]

pub mod lines;
mod page;
mod words;
