// A sheet: a text in rows, edited and laid again.
#![tactic(auto)]

pub mod fault;
pub mod law;
pub mod sheet;
