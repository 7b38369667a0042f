// Scripts: sequences of calls of a sheet, in plain bytes.
#![tactic(auto)]

pub mod command;
pub mod fault;
pub mod lines;
pub mod split;
pub mod told;
