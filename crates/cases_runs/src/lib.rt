// What a program that runs test vectors stands on: the words of their lines, the run of all lines, and its report.
#![tactic(auto)]

#[cfg(test)]
mod examples;
pub mod kind;
pub mod listed;
pub mod program;
mod report;
pub mod run;
pub mod sort;
pub mod words;
