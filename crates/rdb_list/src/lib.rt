//! What a types.rdb holds, entry by entry.
#![tactic(auto)]
