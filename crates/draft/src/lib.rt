// What every part of the planner speaks of: numbered refusals, faults, the shape of a draft, and the
// store that keeps one.
#![tactic(auto)]

pub mod fault;
pub mod labels;
pub mod pairing;
pub mod refusal;
pub mod shape;
pub mod store;
