// What an event asks, whatever the tag: of labels by flags and the one table of lengths, of chips by length and code.
#![tactic(auto)]

pub mod chip;
pub mod label;
pub mod signal;
pub mod table;
pub mod why;
