// Marked cases of document 01 salvaged, as one table. Definitions and a theorem only.
#![tactic(auto)]
