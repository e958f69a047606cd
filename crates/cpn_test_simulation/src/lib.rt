//! Tests of the simulation, of sessions and of shared books by calls that no program makes: probes that count their drops, edits that no
//! document has, seats that are asked call by call, and workers that wait for each other. The crate has nothing but its tests: beside the
//! code that they test they would have all of it proved a second time.
#![tactic(auto)]

#[cfg(test)]
mod dropped_probes;
#[cfg(test)]
mod edited_sessions;
#[cfg(test)]
mod runs;
#[cfg(test)]
mod shared_books;
#[cfg(test)]
mod two_workers;
