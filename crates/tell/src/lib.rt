// What was asked and what an answer means, in words.
#![tactic(auto)]

pub mod command;
pub mod line;
pub mod meaning;
pub mod name;
mod several;
