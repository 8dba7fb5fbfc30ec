// Text in: the program's arguments, files by argument, hex, lines from a reader, a line's words, numbers in decimal, a text's mark; and a file saved
// whole.
#![tactic(auto)]

pub mod args;
pub mod count;
pub mod file;
pub mod hex;
pub mod lines;
pub mod mark;
pub mod save;
pub mod words;
