// The files of rule books, read and sealed.
#![tactic(auto)]

mod ending;
mod filling;
pub mod memory;
pub mod reading;
