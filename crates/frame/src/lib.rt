// The lowest layer: check sum and frames, numbers and bytes, UID endings, writing into a lent buffer, verdicts.
#![tactic(auto)]

pub mod check_sum;
pub mod number;
pub mod part;
pub mod put;
pub mod refusal;
pub mod uid;
pub mod verdict;
