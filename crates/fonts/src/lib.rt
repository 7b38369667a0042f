// Fonts, and the pile of all layers over one.
#![tactic(auto)]

pub mod font;
pub mod pile;
