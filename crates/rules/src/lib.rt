// What rule books mean: the types of their rows, and the theory of judging and clearing.
#![tactic(auto)]

pub mod place;
pub mod row;
pub mod theorems;
