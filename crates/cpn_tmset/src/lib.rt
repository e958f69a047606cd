//! Timed multisets and markings: the tokens of a place with their time stamps, and the tokens of each place of a net.
//!
//! A place keeps its tokens value by value, and of each value how many have each time stamp, so that a value is found
//! in logarithmic time and equal tokens are counted. The calls add and take tokens, tell from when on needs are covered
//! and take what they need, exactly as the definitions say. `Changes` list of which values on which places the stamps differ from one
//! marking to another. The crate evaluates no inscription, knows nothing of
//! bindings or runs, and reads and writes nothing outside the program.
#![tactic(auto)]

mod carried;
mod changed;
mod covering;
mod exchanges;
mod listing;
mod markings;
mod picks;
mod stamps;
mod tmsets;

pub use carried::carry_past;
pub use changed::{Change, Changes};
pub use listing::TokenGroup;
pub use markings::Marking;
pub use picks::{Pick, Picks};
pub use stamps::Stamps;
pub use tmsets::TMSet;
