// Parsers of a prefix. Each returns the rest of the text too.
ghost use Rattle.std.specs.Prelude.{◌≡◌, ◌↔◌, ℕ, ◌<◌, ◌≤◌, ◌^◌, List, ◌∷◌, ◌++◌, Option, Some, IfSome, IsSomeAnd, IsTrue, unwrap_or, decimal};
ghost use Rattle.std.specs.Option.{option_copied};
ghost use Rattle.std.specs.Char.{is_ascii_digit};
ghost use Rattle.chain_links.specs.Base.{is_label_char, is_segment_char, AreLabels, IsPort, AreSegments, default_port, host_text, port_text, path_text};
ghost use Rattle.chain_links.specs.Front.{BeginsWith, BeginsWithout, is_first_digit, is_host_end, HasHost, HasPort, HasNumber, IsPath};
ghost use Rattle.atom_values.specs.Ascii.{slash};

/// The port of a base address without one (RFC 9110 section 4.2.1).
const DEFAULT_PORT: u16 = 80;

/// The rest of the text after the prefix. `None` if the text doesn't begin with it.
pub(crate) fn after<'a>(text: &'a [u8], prefix: &[u8]) -> Option<&'a [u8]>
    ensures found { IfSome result (λ rest. text.now ≡ prefix.now ++ rest.now) }
    ensures only { (rest : List ℕ) → text.now ≡ prefix.now ++ rest → option_copied result ≡ Some rest }
{
    text.strip_prefix(prefix)
}

fn is_label_char(byte: u8) -> bool
    ensures { result ≡ is_label_char byte }
{
    byte.is_ascii_lowercase() || byte.is_ascii_digit() || byte == b'-'
}

fn is_segment_char(byte: u8) -> bool
    ensures { result ≡ is_segment_char byte }
{
    byte.is_ascii_alphanumeric() || matches!(byte, b'-' | b'.' | b'_' | b'~')
}

/// The rest of the text after a host, which is labels separated by points. `None` if the text doesn't begin with a
/// host and one more byte.
pub(crate) fn after_host(text: &[u8]) -> Option<&[u8]>
    ensures found { IfSome result (λ rest. HasHost text.now rest.now) }
    ensures only { (labels : List (List ℕ)) (rest : List ℕ) → AreLabels labels → BeginsWith is_host_end rest
        → text.now ≡ host_text labels ++ rest → option_copied result ≡ Some rest }
{
    // No character of the current label was read yet.
    let mut is_fresh = true;
    for (i, byte) in text.iter().enumerate() {
        if is_label_char(*byte) {
            is_fresh = false;
        } else if is_fresh {
            return None;
        } else if *byte == b'.' {
            is_fresh = true;
        } else {
            return Some(&text[i..]);
        }
    }
    None
}

fn begins_number(text: &[u8]) -> bool
    ensures { IsTrue result ↔ BeginsWith is_first_digit text.now }
{
    matches!(text.first(), Some(b'1'..=b'9'))
}

/// A decimal number from 1 without leading zeros, and the rest of the text after its digits.
pub(crate) fn number(text: &[u8]) -> Option<(u32, &[u8])>
    ensures found { IfSome result (λ x. HasNumber text.now x.0 x.1.now) }
    ensures only { (n : ℕ) (rest : List ℕ) → 1 ≤ n → n < 2 ^ 32 → BeginsWithout is_ascii_digit rest
        → text.now ≡ decimal n ++ rest → IsSomeAnd result (λ x. (x.0 ≡ n) × (x.1.now ≡ rest)) }
{
    if !begins_number(text) {
        return None;
    }
    let mut value: u32 = 0;
    for (i, byte) in text.iter().enumerate() {
        if !byte.is_ascii_digit() {
            return Some((value, &text[i..]));
        }
        let next = u64::from(value) * 10 + u64::from(*byte - b'0');
        // In 64 bits the sum can't overflow, so it is tested once.
        if next > u64::from(u32::MAX) {
            return None;
        }
        value = next as u32;
    }
    Some((value, &[]))
}

/// Parses a text that is a decimal number from 1 to 4294967295 without leading zeros. `None` for any other text. Takes
/// no memory.
pub fn whole_number(text: &[u8]) -> Option<u32>
    ensures found { IfSome result (λ n. (1 ≤ n) × (n < 2 ^ 32) × (text.now ≡ decimal n)) }
    ensures only { (n : ℕ) → 1 ≤ n → n < 2 ^ 32 → text.now ≡ decimal n → result ≡ Some n }
{
    let (value, rest) = number(text)?;
    if rest.is_empty() { Some(value) } else { None }
}

/// The port, which is 80 if none is written, and the rest of the text after it.
pub(crate) fn port(text: &[u8]) -> Option<(u16, &[u8])>
    ensures found { IfSome result (λ x. HasPort text.now x.0 x.1.now) }
    ensures only { (written : Option ℕ) (path : List ℕ) → IsPort written
        → text.now ≡ port_text written ++ slash ∷ path
        → IsSomeAnd result (λ x. (x.0 ≡ unwrap_or written default_port) × (x.1.now ≡ slash ∷ path)) }
{
    let Some(digits) = after(text, b":") else {
        return Some((DEFAULT_PORT, text));
    };
    let (value, rest) = number(digits)?;
    if value > u32::from(u16::MAX) {
        return None;
    }
    Some((value as u16, rest))
}

/// Whether the text is a path: `/`, then any number of segments, each followed by `/`.
pub(crate) fn is_path(text: &[u8]) -> bool
    ensures { IsTrue result ↔ IsPath text.now }
{
    let Some(segments) = after(text, b"/") else {
        return false;
    };
    // The last byte was the `/` before a segment or the end.
    let mut is_closed = true;
    for byte in segments {
        if is_segment_char(*byte) {
            is_closed = false;
        } else if is_closed || *byte != b'/' {
            return false;
        } else {
            is_closed = true;
        }
    }
    is_closed
}
