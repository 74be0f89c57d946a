// The work area: rows of pieces, and each change of them.
#![tactic(auto)]

pub mod lookup;
pub mod merging;
pub mod removal;
pub mod room;
pub mod splitting;
pub mod table;
