// What accepting a file means: which values its bytes show, and which rules a value obeys. Definitions and theorems only.
#![tactic(auto)]
