//! Ids of replicas and items, ticks, versions and cuts, with their texts.
#![tactic(auto)]

pub use cut::Cut;
pub use cut_text::{parse_cut, write_cut};
pub use item_id::ItemId;
pub use item_text::{BadItemId, parse_item, write_item};
pub use laws::{cuts_are_ordered, prefixes_are_measured, texts_tell_apart};
pub use memory::Memory;
pub use part::Part;
pub use range::in_range;
pub use replica_id::ReplicaId;
pub use replica_text::{parse_replica, parse_replica_exact, write_replica};
pub use tick::{MAX_TICK, Tick};
pub use unit_id::UnitId;
pub use version::Version;
pub use version_text::{BadVersion, parse_version, write_version};

mod cut;
mod cut_text;
mod item_id;
mod item_text;
mod laws;
mod memory;
mod pair_text;
mod part;
mod prefix;
mod range;
mod replica_id;
mod replica_text;
mod tick;
mod unit_id;
mod version;
mod version_text;
