ghost use Rattle.std.specs.Prelude.{◌≡◌, ◌+◌, ◌-◌, ◌<◌, ◌↔◌, IsErr, IfOk, IfErr};
ghost use Rattle.sfx_ids.specs.Tick.{max_tick};

use sfx_ids::MAX_TICK;

/// The clock has this tick, and fewer are left than are needed.
#[derive(Clone, Copy, Debug, PartialEq, Eq)]
pub struct ClockFull(pub u64);

/// The clock after so many more ticks.
///
/// # Errors
/// `ClockFull` with the clock where fewer ticks are left.
pub fn fresh(clock: u64, count: u64) -> Result<u64, ClockFull>
    ensures full { IsErr result ↔ (max_tick - clock < count) }
    ensures value { IfOk result (λ tick. tick ≡ clock + count) }
    ensures clock { IfErr result (λ full. full.0 ≡ clock) }
{
    if count > MAX_TICK.saturating_sub(clock) {
        Err(ClockFull(clock))
    } else {
        Ok(clock + count)
    }
}
