// Worked cases of the three stores, run as tests.
#![tactic(auto)]

#[cfg(test)]
mod packed;
#[cfg(test)]
mod piles;
#[cfg(test)]
mod rule;
#[cfg(test)]
mod support;
