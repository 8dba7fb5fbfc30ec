// One label of ISO/IEC 15693-3: what it does with a request, and what it answers.
#![tactic(auto)]

pub mod step;
