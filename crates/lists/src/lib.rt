// Lists that grow over lent memory.
#![tactic(auto)]

pub mod filling;
pub mod lent;
