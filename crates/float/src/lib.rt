// Rust's methods on f32 and f64 that pick, and the gear's own numbers.
#![tactic(auto)]

pub mod binary;
pub mod order;
pub mod whole;

// min, max, clamp and abs.
pub mod pick;

// A burst's duration, a burst's loss, a level's share.
pub mod gear;
