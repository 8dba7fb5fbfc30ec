// Bodies of tags from the lines of a rack's text, and what is wrong with a line: what is read, and the body that it leaves, is what specs/ defines.
#![tactic(auto)]

pub mod blocks;
pub mod bodies;
pub mod chips;
pub mod labels;
pub mod words;
