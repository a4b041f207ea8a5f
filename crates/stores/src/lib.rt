// Three ways to keep a draft: packed bits, a clash rule, and a what-if over any store.
#![tactic(auto)]

mod clash;
mod marks;
pub mod packed;
pub mod piles;
mod rows;
pub mod rule;
pub mod what_if;
