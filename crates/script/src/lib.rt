// Events as lines of text: what a line asks.
#![tactic(auto)]

pub mod commands;
pub mod draws;
pub mod lines;
