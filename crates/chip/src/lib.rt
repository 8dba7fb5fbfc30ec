// One SRI512 chip: what it does with an order, and what it answers.
#![tactic(auto)]

pub mod step;
