// What the proofs of the other crates share: definitions over lists and loops, and laws of them. The crate has no code.
#![tactic(auto)]
