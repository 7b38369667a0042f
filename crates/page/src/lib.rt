// What rows are made of: texts, policies, the measure, endings and row records.
#![tactic(auto)]

pub mod ending;
pub mod measure;
pub mod policy;
pub mod row;
pub mod text;
