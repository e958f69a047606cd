//! Tests of the libraries by calls, in tables that were worked out by hand: what no clause says, which is that the calls succeed where
//! memory is left, and what no program shows. The crate has nothing but its tests: beside the code that they test they would have all of
//! it proved a second time.
#![tactic(auto)]

#[cfg(test)]
mod classes;
#[cfg(test)]
mod logs;
#[cfg(test)]
mod markings;
#[cfg(test)]
mod multisets;
#[cfg(test)]
mod names;
#[cfg(test)]
mod places;
#[cfg(test)]
mod probes;
#[cfg(test)]
mod rows;
#[cfg(test)]
mod streams;
#[cfg(test)]
mod texts;
