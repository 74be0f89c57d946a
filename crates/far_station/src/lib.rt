// What a far station cannot force: definitions and proofs, no code.
#![tactic(auto)]
