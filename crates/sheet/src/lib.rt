// Checking a term sheet in both directions.
#![tactic(auto)]

pub mod checked;
pub mod recheck;
