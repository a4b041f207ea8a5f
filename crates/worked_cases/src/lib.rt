// Worked cases of the draft's parts and of the term sheet, run as tests.
#![tactic(auto)]

#[cfg(test)]
mod bars;
#[cfg(test)]
mod largest;
#[cfg(test)]
mod memory;
#[cfg(test)]
mod parts;
#[cfg(test)]
mod reading;
#[cfg(test)]
mod shapes;
#[cfg(test)]
mod support;
#[cfg(test)]
mod writing;
