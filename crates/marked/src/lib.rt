//! Document 01's marked cases, as one table. Definitions and a theorem only.
#![tactic(auto)]
