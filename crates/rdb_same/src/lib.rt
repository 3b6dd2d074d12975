//! No code: the two readings of a types.rdb agree where no interface has a read-only attribute.
#![tactic(auto)]
