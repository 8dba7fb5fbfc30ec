// A label's body in the rack file: its bytes, locks and rules, the step on it, and the bytes of its answers.
#![tactic(auto)]

pub mod answer;
pub mod body;
pub mod field;
pub mod judge;
pub mod locks;
