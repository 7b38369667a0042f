// Lists of short lines, written into a buffer that the user lends.
#![tactic(auto)]

mod place;
pub mod room;
pub mod word;
pub mod writer;
