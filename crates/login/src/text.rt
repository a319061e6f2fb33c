//! Text: pairs `key=value`, each with a zero byte behind it (RFC 7143, 6.1).
ghost use Rattle.std.specs.Prelude.{◌≡◌, ◌∷◌, ◌<◌, ◌≤◌, [], count_by, length, IfSome, IfNone, option_map};
ghost use Rattle.std.specs.List.{before_first, after_first, position_or_len};
ghost use Rattle.login.specs.Text.{is_byte, is_pair, is_text, pairs, found};

/// The most bytes of a key.
const LONGEST_KEY: usize = 63;

/// The most pairs of a negotiation, and of a Text request.
pub const MOST_PAIRS: usize = 64;

/// The first pair of a text, and the text behind it.
#[derive(Clone, Copy)]
pub struct First<'a> {
    pub key: &'a [u8],
    pub value: &'a [u8],
    pub rest: &'a [u8],
}

/// What stands before the first of these bytes, and what behind it.
pub fn parted(bytes: &[u8], byte: u8) -> Option<(&[u8], &[u8])>
    ensures none { IfNone result (position_or_len (is_byte byte) bytes.now ≡ length bytes.now) }
    ensures some { IfSome result (λ r. position_or_len (is_byte byte) bytes.now < length bytes.now) }
    ensures before { IfSome result (λ r. r.0.now ≡ before_first (is_byte byte) bytes.now) }
    ensures before_shorter { IfSome result (λ r. length r.0.now < length bytes.now) }
    ensures behind { IfSome result (λ r. r.1.now ≡ after_first (is_byte byte) bytes.now) }
    ensures shorter { IfSome result (λ r. length r.1.now < length bytes.now) }
{
    let at = place_of(bytes, byte);
    if at == bytes.len() {
        return None;
    }
    Some((&bytes[..at], &bytes[at + 1..]))
}

/// Where the first of these bytes stands, or the length.
fn place_of(bytes: &[u8], byte: u8) -> usize
    ensures place { result ≡ position_or_len (is_byte byte) bytes.now }
    ensures within { result ≤ length bytes.now }
{
    for (i, b) in bytes.iter().enumerate() {
        if *b == byte {
            return i;
        }
    }
    bytes.len()
}

/// Whether a text is a list of pairs: each has an `=` and a key of 1 to 63 bytes, and ends with a zero byte.
pub fn is_text(text: &[u8]) -> bool
    ensures { result ≡ is_text text.now }
{
    let mut rest = text;
    while let Some((part, behind)) = parted(rest, 0) {
        if !is_pair(part) {
            return false;
        }
        rest = behind;
    }
    rest.is_empty()
}

fn is_pair(part: &[u8]) -> bool
    ensures { result ≡ is_pair part.now }
{
    match parted(part, b'=') {
        Some((key, _)) => !key.is_empty() && key.len() <= LONGEST_KEY,
        None => false,
    }
}

/// How many zero bytes a text has: each ends a pair, or what stands in the place of one.
pub fn count_of_pairs(text: &[u8]) -> usize
    ensures { result ≡ count_by (is_byte 0) text.now }
{
    text.iter().filter(|byte| **byte == 0).count()
}

/// The first pair of a text, if it has one.
pub fn first_pair(text: &[u8]) -> Option<First<'_>>
    ensures none { IfNone result (pairs text.now ≡ []) }
    ensures some { IfSome result (λ f.
        pairs text.now ≡ record { key = f.key.now; value = f.value.now } ∷ pairs f.rest.now) }
    ensures value_within { IfSome result (λ f. length f.value.now ≤ length text.now) }
    ensures shorter { IfSome result (λ f. length f.rest.now < length text.now) }
{
    let Some((part, rest)) = parted(text, 0) else {
        return None;
    };
    let (key, value) = pair_of(part);
    Some(First { key, value, rest })
}

/// What stands before the first `=`, and what behind it.
fn pair_of(part: &[u8]) -> (&[u8], &[u8])
    ensures key { result.0.now ≡ before_first (is_byte 61) part.now }
    ensures value { result.1.now ≡ after_first (is_byte 61) part.now }
    ensures within { length result.1.now ≤ length part.now }
{
    match parted(part, b'=') {
        Some((key, value)) => (key, value),
        None => (part, &part[part.len()..]),
    }
}

/// The value of the first pair of a text with this key.
pub fn found<'a>(text: &'a [u8], key: &[u8]) -> Option<&'a [u8]>
    ensures value { option_map (λ v. v.now) result ≡ found key.now (pairs text.now) }
    ensures within { IfSome result (λ v. length v.now ≤ length text.now) }
{
    let mut rest = text;
    while let Some(first) = first_pair(rest) {
        if first.key == key {
            return Some(first.value);
        }
        rest = first.rest;
    }
    None
}
