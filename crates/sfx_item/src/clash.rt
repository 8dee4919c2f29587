ghost use Rattle.std.specs.Prelude.{◌≡◌, ◌<◌, ◌↔◌, length, slice_index, IsTrue};
ghost use Rattle.sfx_item.specs.Clash.{Clash, IsBelow};
ghost use Rattle.sfx_item.specs.Decided.{is_clash};
ghost use Rattle.sfx_item.specs.Name.{slash};

use crate::Name;

/// Whether the names are equal, or the components of one are those of the other and some more.
pub fn clashes(a: &Name, b: &Name) -> bool
    ensures clash { IsTrue result ↔ Clash a.now b.now }
    ensures decided { result ≡ is_clash a.now b.now }
{
    a.bytes() == b.bytes() || is_below(a.bytes(), b.bytes()) || is_below(b.bytes(), a.bytes())
}

/// Whether the first name lies below the other: it goes on behind it with a slash.
fn is_below(name: &[u8], other: &[u8]) -> bool
    ensures { IsTrue result ↔ IsBelow name.now other.now }
{
    match name.strip_prefix(other) {
        Some(rest) => begins_with_slash(rest),
        None => false,
    }
}

/// Whether the first byte is a slash.
fn begins_with_slash(bytes: &[u8]) -> bool
    ensures { IsTrue result ↔ ((0 < length bytes.now) × (slice_index bytes.now 0 ≡ slash)) }
{
    matches!(bytes, [b'/', ..])
}
