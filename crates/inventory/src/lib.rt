// The inventory walk.
#![tactic(auto)]

pub mod clear;
pub mod round;
pub mod taking;
pub mod twins;
pub mod walk;
