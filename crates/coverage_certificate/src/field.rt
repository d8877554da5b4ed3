//! The fields of a line. Each is read exactly: no other text of the same value is taken.

ghost use Rattle.std.specs.Prelude.{◌≡◌, ◌<◌, ◌^◌, ◌∷◌, ◌++◌, ℕ, List, None, Some, IfSome, OnOk, IfOk, decimal, length, option_copied};
ghost use Rattle.atom_values.specs.Ascii.{lf, space};
ghost use Rattle.hex.specs.Hex.{encode_lower};
ghost use Rattle.deleted_entries.specs.FeedId.{IsFeedId, feed_text};
ghost use Rattle.coverage_certificate.specs.Digest.{IsDigest};
ghost use Rattle.coverage_certificate.specs.Reading.{HasNoLf, IsNextLine, IsSpacedDigest};

use crate::cover_line::digest_fits;
use chain_links::whole_number;
use deleted_entries::FeedId;
use hex::{FromHex, encode_to_slice};

/// The number of digits of a digest.
pub(crate) const DIGEST_DIGITS: usize = 64;

/// The rest of the text after the prefix. `None` if the text doesn't begin with it.
pub(crate) fn after<'a>(text: &'a [u8], prefix: &[u8]) -> Option<&'a [u8]>
    ensures found { IfSome result (λ rest. text.now ≡ prefix.now ++ rest.now) }
    ensures only { (rest : List ℕ) → text.now ≡ prefix.now ++ rest → option_copied result ≡ Some rest }
{
    text.strip_prefix(prefix)
}

/// The first line of the text, without its LF, and the rest of the text after the LF. `None` if there is no
/// LF.
pub(crate) fn next_line(text: &[u8]) -> Option<(&[u8], &[u8])>
    ensures found { IfSome result (λ x. IsNextLine text.now x.0.now x.1.now) }
    ensures none { result ≡ None → HasNoLf text.now }
{
    let at = text.iter().position(|byte| *byte == b'\n')?;
    Some((&text[..at], &text[at + 1..]))
}

/// A decimal number of 32 bits without leading zeros. `None` for any other text.
pub(crate) fn number(text: &[u8]) -> Option<u32>
    ensures found { IfSome result (λ n. (n < 2 ^ 32) × (text.now ≡ decimal n)) }
    ensures only { (n : ℕ) → n < 2 ^ 32 → text.now ≡ decimal n → result ≡ Some n }
{
    if text == b"0".as_slice() {
        Some(0)
    } else {
        whole_number(text)
    }
}

/// The identifier of a feed, in lower case with hyphens. `None` for any other text.
pub(crate) fn feed_id(text: &[u8]) -> Option<FeedId>
    ensures found { IfSome result (λ id. IsFeedId id × (text.now ≡ feed_text id)) }
    ensures only { (id : List ℕ) → IsFeedId id → text.now ≡ feed_text id → result ≡ Some id }
{
    let id = FeedId::parse(text)?;
    if id.print().as_slice() == text {
        Some(id)
    } else {
        None
    }
}

/// A digest in lower-case hexadecimal digits. `None` for any other text.
pub(crate) fn digest(text: &[u8]) -> Option<[u8; 32]>
    ensures found { IfSome result (λ digest. IsDigest digest × (text.now ≡ encode_lower digest)) }
    ensures only { (digest : List ℕ) → IsDigest digest → text.now ≡ encode_lower digest
        → result ≡ Some digest }
{
    let Ok(digest) = <[u8; 32]>::from_hex(text) else {
        return None;
    };
    digest_fits(&digest);
    // The decoder takes upper-case digits too.
    if digest_digits(&digest).as_slice() == text {
        Some(digest)
    } else {
        None
    }
}

/// The digits of a digest, in lower case.
pub(crate) fn digest_digits(digest: &[u8; 32]) -> [u8; DIGEST_DIGITS]
    ensures { result ≡ encode_lower digest.now }
{
    let mut digits = [0; DIGEST_DIGITS];
    // The room is exactly that of the digits, so this can't fail.
    let _ = encode_to_slice(digest.as_slice(), &mut digits);
    digits
}

/// The text before a space and a digest, and the digest. `None` if the text doesn't end with them.
pub(crate) fn spaced_digest(text: &[u8]) -> Option<(&[u8], [u8; 32])>
    ensures found { IfSome result (λ x. IsSpacedDigest text.now x.0.now x.1) }
    ensures none { result ≡ None → (front digest : List ℕ) → ¬ IsSpacedDigest text.now front digest }
{
    let at = text.len().checked_sub(1 + DIGEST_DIGITS)?;
    let (front, behind) = text.split_at(at);
    let digits = after(behind, b" ")?;
    Some((front, digest(digits)?))
}
