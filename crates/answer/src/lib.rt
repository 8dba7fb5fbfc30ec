// The answer reader: what a frame means to the command that was sent.
#![tactic(auto)]

pub mod reading;
