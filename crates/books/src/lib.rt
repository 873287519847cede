// Rule books: their rows and definitions tested, and sealed.
#![tactic(auto)]

pub mod book;
pub mod draft;
pub mod fault;
mod guard;
mod joined;
pub mod limits;
pub mod parts;
pub mod sealing;
