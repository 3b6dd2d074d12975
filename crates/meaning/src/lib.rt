// No code: document 01's meaning of a typelib stands in specs, its laws in proofs.
#![tactic(auto)]
