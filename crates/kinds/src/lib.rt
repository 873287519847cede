// Number kinds: the trait with its meaning and laws, and the kinds that there are.
#![tactic(auto)]

pub mod decimal;
mod integer;
pub mod number;
mod token;
pub mod whole;
mod writing;
