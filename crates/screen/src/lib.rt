// A screen that shows the rows of a sheet, and paints again what the sheet's records tell.
#![tactic(auto)]

mod painting;
pub mod screen;
pub mod shown_row;
