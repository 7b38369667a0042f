// Layers over measurers: tracking, fallback, and the advance cache.
#![tactic(auto)]

pub mod cache;
pub mod fallback;
pub mod tracking;
