// What an accepted reply leaves.
#![tactic(auto)]

pub mod accepted;
pub mod acks;
pub mod awaited;
pub mod turns;
