// No code: answers in terms of keys stand in specs, that they stay given in proofs.
#![tactic(auto)]
