// Reading a sheet into the caller's lists.
#![tactic(auto)]

pub mod check;
mod courses;
mod decode;
mod fields;
mod fill;
mod head;
pub mod read;
mod tail;
