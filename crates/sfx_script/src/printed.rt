//! How values and clock vectors are printed.
ghost use Rattle.std.specs.Prelude.{◌≡◌, ◌++◌, OnOk, OnErr};
ghost use Rattle.sfx_script.specs.Printed.{clock_text, value_text, vector_text};

use itoa::Buffer;
use percent_encoding::{AsciiSet, CONTROLS, ascii_set, percent_encode};
use sfx_ids::{Memory, ReplicaId, Tick, write_replica};
use sfx_item::Value;
use sfx_vector::ClockVector;

/// The ASCII bytes that a value is not printed with: the control characters, the blank and `%`.
pub const VALUE_SET: AsciiSet = ascii_set!(CONTROLS.add(b' ').add(b'%'));

/// Appends the text of a value: percent-encoded, each byte from 0x00 to 0x20, 0x25, 0x7F and from 0x80 on as `%`
/// and two upper-case hexadecimal digits; but `-` for no bytes and `%2D` for the one byte `-`. Where memory runs
/// out, nothing is appended.
pub fn write_value(out: &mut Vec<u8>, v: &Value) -> Result<(), Memory>
    ensures ok { OnOk result (out.new.items ≡ out.old.items ++ value_text v.now) }
    ensures err { OnErr result (out.new.items ≡ out.old.items) }
{
    match v.bytes() {
        [] => out.extend_from_slice(b"-")?,
        [b'-'] => out.extend_from_slice(b"%2D")?,
        bytes => {
            let mut text = String::new(*out.allocator());
            percent_encode(bytes, VALUE_SET).append_to(&mut text)?;
            out.extend_from_slice(text.as_bytes())?;
        }
    }
    Ok(())
}

/// Appends the text of a clock vector: `REPLICA=TICK` for each replica with a tick, ascending, with commas
/// between them, or `-` where it has none. Where memory runs out, nothing is appended.
pub fn write_vector(out: &mut Vec<u8>, v: &ClockVector) -> Result<(), Memory>
    ensures ok { OnOk result (out.new.items ≡ out.old.items ++ vector_text v.now) }
    ensures err { OnErr result (out.new.items ≡ out.old.items) }
{
    if v.len() == 0 {
        out.push(b'-')?;
        return Ok(());
    }
    let mut text = Vec::new(*out.allocator());
    for i in 0..v.len() {
        if i > 0 {
            text.push(b',')?;
        }
        write_entry(&mut text, v.entry(i))?;
    }
    out.extend_from_slice(text.as_slice())?;
    Ok(())
}

/// Appends the text of an entry of a vector.
fn write_entry(out: &mut Vec<u8>, entry: (ReplicaId, Tick)) -> Result<(), Memory>
    ensures { OnOk result (out.new.items ≡ out.old.items ++ clock_text entry) }
{
    write_replica(out, &entry.0)?;
    out.push(b'=')?;
    out.extend_from_slice(Buffer::new().format(entry.1.get()).as_bytes())?;
    Ok(())
}
