ghost use Rattle.std.specs.Prelude.{◌≡◌, ℕ, ◌<◌, ◌^◌, ◌++◌, OnOk, OnErr, IfSome, option_map};
ghost use Rattle.std.specs.Int.{from_be_bytes, w128};
ghost use Rattle.uuid.specs.Text.{parsed};
ghost use Rattle.sfx_ids.specs.Text.{replica_text};

use crate::{Memory, ReplicaId};
use uuid::Uuid;

/// How many bytes the text of a replica has.
pub const REPLICA_LEN: usize = 36;

/// Appends the text of a replica: 36 lower-case hyphenated characters (RFC 9562). Where memory
/// runs out, nothing is appended.
pub fn write_replica(out: &mut Vec<u8>, id: &ReplicaId) -> Result<(), Memory>
    ensures ok { OnOk result (out.new.items ≡ out.old.items ++ replica_text id.now) }
    ensures err { OnErr result (out.new.items ≡ out.old.items) }
{
    let mut buffer = [0; REPLICA_LEN];
    out.extend_from_slice(text_of(id, &mut buffer).as_bytes())?;
    Ok(())
}

/// The replica with this text in any of the four forms of a UUID: hyphenated, simple, in braces or
/// behind `urn:uuid:`, with letters of either case; or `None` where it is none of these.
pub fn parse_replica(text: &str) -> Option<ReplicaId>
    ensures { result ≡ option_map (from_be_bytes w128) (parsed text.now) }
{
    match Uuid::parse_str(text) {
        Ok(uuid) => Some(ReplicaId::new(uuid.as_u128())),
        Err(_) => None,
    }
}

/// The replica whose text this is: the 36 lower-case hyphenated characters alone, exactly as
/// `write_replica` writes them; or `None`.
pub fn parse_replica_exact(text: &str) -> Option<ReplicaId>
    ensures some { IfSome result (λ id. (id < 2 ^ 128) × (text.now ≡ replica_text id)) }
    ensures only { (id : ℕ) → id < 2 ^ 128 → text.now ≡ replica_text id → result ≡ Some id }
{
    let id = parse_replica(text)?;
    let mut buffer = [0; REPLICA_LEN];
    if text == text_of(&id, &mut buffer) {
        Some(id)
    } else {
        None
    }
}

/// The text of a replica, written into the buffer.
#[tactic(auto, unfolding(crate::specs::Text::replica_text))]
pub fn text_of<'a>(id: &ReplicaId, buffer: &'a mut [u8; REPLICA_LEN]) -> &'a str
    ensures { result.now ≡ replica_text id.now }
{
    let uuid = Uuid::from_u128(id.number());
    uuid.hyphenated().encode_lower(buffer)
}
