// A rack as text, and why a rack is refused. Each function lays a text into a line.
#![tactic(auto)]

pub mod blocks;
pub mod chips;
pub mod labels;
pub mod refusal;
pub mod tags;
pub mod words;
