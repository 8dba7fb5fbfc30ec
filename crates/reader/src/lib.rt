// What a reader can send, and the request writer.
#![tactic(auto)]

pub mod command;
pub mod writer;
