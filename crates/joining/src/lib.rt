//! The union of two accepted files: its refusals 21 to 27, and its normal form into a buffer.
#![tactic(auto)]

pub mod union;
