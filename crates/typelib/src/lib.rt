// The whole file.
#![tactic(auto)]

mod chains;
mod front;
mod keys;
mod own;
mod whole;

pub use front::check_front;
pub use keys::first_repeated;
pub use own::{check_again, first_pointing};
pub use whole::check_typelib;
