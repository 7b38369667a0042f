// What the programs share: their options, their input, their fonts, and how they stop.
#![tactic(auto)]

pub mod font_file;
pub mod frame;
pub mod options;
pub mod setters;
pub mod stop;
