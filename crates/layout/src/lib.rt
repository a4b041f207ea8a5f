// The term sheet's rows and the layout of their fields in bits.
#![tactic(auto)]

pub mod bars;
pub mod choice;
pub mod faults;
pub mod rows;
pub mod shapes;
pub mod widths;
