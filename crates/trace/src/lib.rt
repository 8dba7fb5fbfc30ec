// What an event found and left on the rack, in words: why nobody answered, who did, and what changed.
#![tactic(auto)]

pub mod calm;
mod change;
pub mod changes;
mod chips;
mod labels;
pub mod owners;
pub mod question;
pub mod reason;
pub mod why;
