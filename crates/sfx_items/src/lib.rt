//! Lists of items in order of their ids: what stands in them and where, and how they are changed.
#![tactic(auto)]

pub use beside::{Neighbours, last_before, neighbours_of};
pub use copying::copies;
pub use finding::{find, first_from, place_from, place_of};
pub use many::{drop_all, put_all};
pub use one::{put, take_away};

mod beside;
mod copying;
mod finding;
mod many;
mod one;
mod search;
