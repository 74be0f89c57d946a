// The levels: which may be used, what is remembered of each, and what each moves.
#![tactic(auto)]

pub mod down;
pub mod losses;
pub mod memory;
pub mod rates;
pub mod reach;
pub mod usable;
