//! Tables of the rows of two files: those of the first, then those of the second.
#![tactic(auto)]

pub mod chains;
pub mod mates;
pub mod order;
