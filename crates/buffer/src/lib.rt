// A text that is edited in place, and what it would read as after an edit.
#![tactic(auto)]

pub mod edited_text;
pub mod gap_buffer;
