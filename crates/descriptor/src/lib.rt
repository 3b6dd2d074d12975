//! Constants and interface descriptors.
#![tactic(auto)]

mod constant;
mod pairs;
mod record;

pub use pairs::many_constructors;
pub use record::{read_descriptor, read_with};
