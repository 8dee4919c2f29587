ghost use Rattle.std.specs.Prelude.{◌≡◌, ◌≢◌, ℕ, ◌<◌, ◌≤◌, ◌-◌, ◌⊎◌, ◌↔◌, length, slice_index, IsTrue, IfSome, IfNone};
ghost use Rattle.sfx_item.specs.Decided.{name_fault};
ghost use Rattle.sfx_item.specs.Faults.{HasControlBytes, IsControlAt, IsImproperAt, IsTextUpTo};
ghost use Rattle.sfx_item.specs.Name.{IsFirstWrongInName, IsImproper, IsName, IsWrongAt, slash};

/// The greatest length of a name in bytes.
pub const MAX_NAME_LEN: usize = 255;

/// The least index at which something keeps the bytes from being a name, or `None` where they are one.
pub fn first_wrong(bytes: &[u8]) -> Option<usize>
    ensures wrong { IfSome result (λ at. IsFirstWrongInName bytes.now at) }
    ensures name { IfNone result (IsName bytes.now) }
    ensures decided { result ≡ name_fault bytes.now }
{
    let text_len = text_len(bytes);
    for at in 0..bytes.len() + 1 {
        if is_wrong_at(bytes, text_len, at) {
            return Some(at);
        }
    }
    None
}

/// The length of the longest prefix that is UTF-8.
fn text_len(bytes: &[u8]) -> usize
    ensures { IsTextUpTo bytes.now result }
{
    match str::from_utf8(bytes) {
        Ok(_) => bytes.len(),
        Err(error) => error.valid_up_to(),
    }
}

/// Whether something is wrong at this index, where this many bytes are UTF-8.
fn is_wrong_at(bytes: &[u8], text_len: usize, at: usize) -> bool
    requires text { IsTextUpTo bytes.now text_len }
    requires within { at ≤ length bytes.now }
    ensures { IsTrue result ↔ IsWrongAt bytes.now at }
{
    if is_size_end(bytes, at) {
        return true;
    }
    if is_text_end(bytes, text_len, at) {
        return true;
    }
    if is_control_at(bytes, text_len, at) {
        return true;
    }
    is_improper_at(bytes, text_len, at)
}

/// Whether the greatest length of a name ends at this index, and more bytes follow.
fn is_size_end(bytes: &[u8], at: usize) -> bool
    ensures { IsTrue result ↔ ((255 < length bytes.now) × (at ≡ 255)) }
{
    at == MAX_NAME_LEN && bytes.len() > MAX_NAME_LEN
}

/// Whether the text ends at this index, and more bytes follow.
fn is_text_end(bytes: &[u8], text_len: usize, at: usize) -> bool
    ensures { IsTrue result ↔ ((text_len < length bytes.now) × (at ≡ text_len)) }
{
    at == text_len && text_len < bytes.len()
}

/// Whether a control character begins at this index, behind text.
fn is_control_at(bytes: &[u8], text_len: usize, at: usize) -> bool
    requires text { IsTextUpTo bytes.now text_len }
    requires within { at ≤ length bytes.now }
    ensures { IsTrue result ↔ IsControlAt bytes.now at }
{
    if at >= text_len {
        return false;
    }
    begins_with_control(&bytes[at..])
}

/// Whether the first bytes are those of a control character.
fn begins_with_control(bytes: &[u8]) -> bool
    ensures { IsTrue result ↔ HasControlBytes bytes.now }
{
    matches!(bytes, [0..=31 | 127, ..] | [194, 128..=159, ..])
}

/// Whether a component that no name has stands at this index, behind text.
fn is_improper_at(bytes: &[u8], text_len: usize, at: usize) -> bool
    requires text { IsTextUpTo bytes.now text_len }
    requires within { at ≤ length bytes.now }
    ensures { IsTrue result ↔ IsImproperAt bytes.now at }
{
    if at > text_len {
        return false;
    }
    if !begins_component(bytes, at) {
        return false;
    }
    let rest = &bytes[at..];
    is_improper(&rest[..component_len(rest)])
}

/// Whether a component begins at this index.
fn begins_component(bytes: &[u8], at: usize) -> bool
    requires { at ≤ length bytes.now }
    ensures { IsTrue result ↔ ((at ≡ 0) ⊎ (slice_index bytes.now (at - 1) ≡ slash)) }
{
    at == 0 || bytes[at - 1] == b'/'
}

/// How many bytes stand before the first slash.
fn component_len(bytes: &[u8]) -> usize
    ensures within { result ≤ length bytes.now }
    ensures single { (k : ℕ) → k < result → slice_index bytes.now k ≢ slash }
    ensures ends { result < length bytes.now → slice_index bytes.now result ≡ slash }
{
    for (i, byte) in bytes.iter().enumerate() {
        if *byte == b'/' {
            return i;
        }
    }
    bytes.len()
}

/// Whether the component is empty, `.` or `..`.
fn is_improper(component: &[u8]) -> bool
    ensures { IsTrue result ↔ IsImproper component.now }
{
    matches!(component, [] | [b'.'] | [b'.', b'.'])
}
