// A burst of data, once accepted.
#![tactic(auto)]

pub mod burst;
pub mod sending;
