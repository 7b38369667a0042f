// A list that grows in slots its user lends.
#![tactic(auto)]

pub mod bounded;
pub mod full;
#[cfg(test)]
mod tests;
