// What the proofs that tools/walk.py prints cite. The crate has no code.
#![tactic(auto)]
