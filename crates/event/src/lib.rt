// The event: every tag of a rack takes its step, and what they say is told.
#![tactic(auto)]

pub mod call;
