ghost use Rattle.std.specs.Prelude.{◌≡◌, ℕ, ◌<◌, ◌^◌, ◌++◌, OnOk, OnErr, IfSome, decimal};
ghost use Rattle.sfx_ids.specs.Text.{IsSeparator, pair_text};
ghost use Rattle.sfx_ids.specs.Tick.{IsTick};

use crate::replica_text::{REPLICA_LEN, parse_replica_exact, text_of};
use crate::{Memory, ReplicaId, Tick};
use itoa::Buffer;

/// Appends a tick, the separator and a replica, or nothing where memory runs out.
pub fn write_pair(
    out: &mut Vec<u8>,
    tick: &Tick,
    separator: u8,
    replica: &ReplicaId,
) -> Result<(), Memory>
    ensures ok { OnOk result (out.new.items ≡ out.old.items ++ pair_text separator tick.now replica.now) }
    ensures err { OnErr result (out.new.items ≡ out.old.items) }
{
    let mut decimal = Buffer::new();
    let mut hexadecimal = [0; REPLICA_LEN];
    let digits = decimal.format(tick.get()).as_bytes();
    let replica = text_of(replica, &mut hexadecimal).as_bytes();
    out.reserve(digits.len() + 1 + replica.len())?;
    out.extend_from_slice(digits)?;
    out.push(separator)?;
    out.extend_from_slice(replica)?;
    Ok(())
}

/// The tick and the replica whose text this is, with the separator between them.
pub fn read_pair(text: &str, separator: u8) -> Option<(Tick, ReplicaId)>
    requires { IsSeparator separator }
    ensures some { IfSome result (λ pair. IsTick pair.0 × (pair.1 < 2 ^ 128)
        × (text.now ≡ pair_text separator pair.0 pair.1)) }
    ensures only { (tick replica : ℕ) → IsTick tick → replica < 2 ^ 128 →
        text.now ≡ pair_text separator tick replica → result ≡ Some (tick, replica) }
{
    let (tick, replica) = text.split_once(char::from(separator))?;
    Some((parse_tick(tick)?, parse_replica_exact(replica)?))
}

/// The tick with this text: its decimal digits, with no leading zero.
fn parse_tick(text: &str) -> Option<Tick>
    ensures some { IfSome result (λ tick. IsTick tick × (text.now ≡ decimal tick)) }
    ensures only { (tick : ℕ) → IsTick tick → text.now ≡ decimal tick → result ≡ Some tick }
{
    let count = text.parse::<u64>().ok()?;
    if Buffer::new().format(count) != text {
        return None;
    }
    Tick::new(count)
}
