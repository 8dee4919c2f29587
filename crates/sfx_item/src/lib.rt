//! Items: the values of their change units, each at its version.
#![tactic(auto)]

pub use cell::Cell;
pub use clash::clashes;
pub use first_wrong::MAX_NAME_LEN;
pub use item::Item;
pub use laws::{
    names_are_decided, names_on_examples, new_names_on_examples, nothing_is_wrong_with_names,
};
pub use name::Name;
pub use name_fault::NameFault;
pub use row::Row;
pub use state::State;
pub use value::Value;

mod cell;
mod clash;
mod first_wrong;
mod item;
mod laws;
mod name;
mod name_fault;
mod row;
mod state;
mod value;
