// Tests of the work area's rows, lists and bits.
#![tactic(auto)]

pub mod flying;
pub mod rows;
pub mod unlisted;
