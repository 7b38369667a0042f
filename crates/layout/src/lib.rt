// Rows by first fit: how one is broken, and how a whole text is laid.
#![tactic(auto)]

pub mod breaking;
pub mod cover;
pub mod edges;
pub mod laying;
pub mod row_list;
mod scan;
pub mod setter;
pub mod setting;
