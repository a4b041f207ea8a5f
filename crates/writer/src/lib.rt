// Writing the sheet of rows.
#![tactic(auto)]

mod fields;
mod put;
mod rows_check;
pub mod write;
