// Laying a text again after an edit: rows that the edit does not reach are carried over, and so are
// those behind it once a new row starts where an old one did.
#![tactic(auto)]

mod carrying;
pub mod edit;
mod meeting;
pub mod relaying;
pub mod repaint;
mod repainting;
