// What is left of a damaged file: which descriptors are refused, and which lie on a parent cycle.
#![tactic(auto)]

mod own;
mod reports;

pub use own::judge;
pub use reports::{number_at, place_at};

// Of the descriptor of an entry: a refusal's number and 1 more, 0 where it is accepted; its place; the index above the
// entry, counted from 1, 0 for none. All are of one size, so that a copy has no gap in it.
#[derive(Drop)]
pub struct Mark {
    pub number: usize,
    pub place: usize,
    pub up: usize,
}
