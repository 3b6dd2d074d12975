//! No code: what the listing of a types.rdb says of a path is what is answered about it.
#![tactic(auto)]
