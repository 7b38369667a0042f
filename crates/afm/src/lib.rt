// The reader of Adobe Font Metrics files.
#![tactic(auto)]

mod entry_line;
pub mod fault;
mod field;
pub mod font;
mod part;
mod reader;
mod search;
mod section;
mod words;
