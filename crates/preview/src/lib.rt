// Rows as text: a line for each row, a drawing of the label, and refusals in words.
#![tactic(auto)]

pub mod drawing;
pub mod lines;
pub mod words;
