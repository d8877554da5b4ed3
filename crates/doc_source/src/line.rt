//! The first line of an offer.

ghost use Rattle.std.specs.Prelude.{◌≡◌, ◌≢◌, ℕ, ◌+◌, ◌≤◌, ◌<◌, ◌↔◌, List, length, take, drop, decimal, IsTrue, IfSome, MatchOption, Some};
ghost use Rattle.atom_values.specs.Ascii.{space};
ghost use Rattle.doc_source.specs.Pile.{address_limit, offer_limit};
ghost use Rattle.doc_source.specs.Line.{HasNo, HasNoLf, IsFirst, IsLine, BeginsCount, BeginsLine};

use itoa::Buffer;

/// The most bytes of an address.
const MAX_ADDRESS: usize = 1_024;

/// The most bytes of a document that is offered.
const MAX_BYTES: u32 = 67_108_864;

/// The first line of an offer, as read: the address is the line's first `address_len` bytes, and `count` bytes follow
/// the line.
#[derive(Clone, Copy, Debug)]
pub(crate) struct OfferLine {
    pub(crate) address_len: usize,
    pub(crate) count: usize,
}

/// Reads a line without its LF. `None` if it isn't the first line of an offer.
pub(crate) fn parse_line(line: &[u8]) -> Option<OfferLine>
    requires { HasNoLf line.now }
    ensures { MatchOption result ((address : List ℕ) (count : ℕ) → ¬ IsLine line.now address count)
        (λ found. (found.address_len ≤ length line.now)
        × IsLine line.now (take found.address_len line.now) found.count) }
{
    let Some(address_len) = first_space(line) else {
        return None;
    };
    if !is_address_len(address_len) {
        return None;
    }
    let Some(count) = count_of(&line[address_len + 1..]) else {
        return None;
    };
    Some(OfferLine { address_len, count })
}

/// Whether the part is a prefix of the first line of an offer.
pub(crate) fn begins_line(part: &[u8]) -> bool
    requires { HasNoLf part.now }
    ensures { IsTrue result ↔ BeginsLine part.now }
{
    let Some(address_len) = first_space(part) else {
        return part.len() <= MAX_ADDRESS;
    };
    if !is_address_len(address_len) {
        return false;
    }
    begins_count(&part[address_len + 1..])
}

fn is_address_len(len: usize) -> bool
    ensures { IsTrue result ↔ ((0 < len) × (len ≤ address_limit)) }
{
    0 < len && len <= MAX_ADDRESS
}

/// The index of the first space.
fn first_space(bytes: &[u8]) -> Option<usize>
    ensures { MatchOption result (HasNo space bytes.now) (IsFirst space bytes.now) }
{
    bytes.iter().position(|byte| *byte == b' ')
}

/// Whether the digits are a prefix of the number of an offer's bytes.
fn begins_count(digits: &[u8]) -> bool
    ensures { IsTrue result ↔ BeginsCount digits.now }
{
    digits.is_empty() || count_of(digits).is_some()
}

/// The number of an offer's bytes, which the digits write in decimal without leading zeros.
fn count_of(digits: &[u8]) -> Option<usize>
    ensures found { IfSome result (λ n. (n ≤ offer_limit) × (digits.now ≡ decimal n)) }
    ensures only { (n : ℕ) → n ≤ offer_limit → digits.now ≡ decimal n → result ≡ Some n }
{
    let Ok(text) = str::from_utf8(digits) else {
        return None;
    };
    let Ok(count) = u32::from_str_radix(text, 10) else {
        return None;
    };
    // The parser takes a plus and leading zeros too.
    let is_canonical = Buffer::new().format(count).as_bytes() == digits;
    if is_canonical && count <= MAX_BYTES {
        Some(count as usize)
    } else {
        None
    }
}
