// Commands as words: what a line of them asks a reader to send, and what is wrong with one that asks nothing.
#![tactic(auto)]

pub mod commands;
pub mod data;
pub mod pieces;
pub mod tokens;
pub mod trouble;
pub mod verb;
