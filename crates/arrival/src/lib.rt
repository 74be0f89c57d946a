// A sender and a listening box over a channel that loses: definitions and proofs, no code.
#![tactic(auto)]
