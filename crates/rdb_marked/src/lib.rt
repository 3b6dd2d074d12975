//! Marked cases of types.rdb, as one table. Definitions and a theorem only.
#![tactic(auto)]
