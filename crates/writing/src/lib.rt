//! Writes fields, names, methods and constants; the name of a method or constant lies where a table of places says. A writer puts its record
//! to the front of the part that it is lent, and answers how many bytes it has; it lends the part after each of the records inside on to their writers.
#![tactic(auto)]

pub mod constant;
pub mod field;
pub mod method_record;
pub mod param;
pub mod word;
