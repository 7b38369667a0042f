// Runs scripts on sheets, and writes their lists.
#![tactic(auto)]

mod carrying;
pub mod entering;
pub mod fault;
pub mod replay;
pub mod reply;
pub mod run;
