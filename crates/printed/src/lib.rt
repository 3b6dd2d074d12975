//! The lines of the listing, each written whole from a place of a lent buffer on, and what stands in them.
#![tactic(auto)]

pub mod line;
pub mod value;
pub mod word;

/// Room that any line fits in.
pub const LINE_ROOM: usize = 1024;
