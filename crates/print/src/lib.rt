// Text out: laid into a line, and written to standard output; and what went wrong, to standard error.
#![tactic(auto)]

pub mod fail;
mod hex;
pub mod line;
pub mod put;
pub mod quote;
pub mod say;
