// Numbers in decimal digits, read and written.
#![tactic(auto)]

pub mod decimal;
pub mod reading;
