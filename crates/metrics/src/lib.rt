// Measurers: what advance a character has, and which characters have none.
#![tactic(auto)]

pub mod cells;
pub mod entry;
pub mod fault;
pub mod measurer;
