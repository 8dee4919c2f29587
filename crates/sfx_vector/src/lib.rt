//! Clock vectors: for each replica the tick up to which its versions are known.
#![tactic(auto)]

pub use clock_vector::ClockVector;
pub use laws::ticks_tell_apart;

mod clock_vector;
mod laws;
