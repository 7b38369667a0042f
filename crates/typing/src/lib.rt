// Typing a text into a sheet, one character at a time, with a screen that follows.
#![tactic(auto)]

pub mod fault;
pub mod keys;
