//! What becomes of a change at its destination: its class, and the settling of conflicts.
#![tactic(auto)]

pub use change::classify;
pub use clash::settle_clash;
pub use class::{Class, UnitClasses};
pub use draft::{Draft, Marks};
pub use longer::Longer;
pub use merger::Merger;
pub use per_unit::PerUnit;
pub use rules::Rules;
pub use sfx_model::{ClashRule, Keep, Mark, UnitClass};
pub use ticks::{ClockFull, fresh};
pub use units::settle_units;
pub use whole::{settle_whole, values_of};

mod change;
mod clash;
mod class;
mod draft;
mod known;
mod longer;
mod merger;
mod per_unit;
mod rules;
mod ticks;
mod units;
mod whole;
