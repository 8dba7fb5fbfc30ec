// What the numbers of the C face mean: the command that they name, and a reading told by them.
#![tactic(auto)]

pub mod fields;
pub mod told;
