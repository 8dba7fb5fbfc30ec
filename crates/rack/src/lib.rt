// The rack: the rules of its file, and whatever depends on a tag's kind.
#![tactic(auto)]

pub mod file;
pub mod place;
pub mod tag;
pub mod whole;
