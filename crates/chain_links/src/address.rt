ghost use Rattle.std.specs.Prelude.{◌≡◌, ◌≤◌, ◌+◌, ◌++◌, length, vec_len, vec_capacity, decimal, Some, IfSome};
ghost use Rattle.chain_links.specs.Address.{IsAddress, suffix_limit, suffix_text};
ghost use Rattle.chain_links.specs.declared.address.Address.{Address};

use crate::front::{after, whole_number};
use itoa::Buffer;

/// The document of an address. `Base::print` asks that the number is at least 1.
#[derive(Clone, Copy, Debug, PartialEq, Eq)]
pub enum Address {
    /// The subscription document (RFC 5005 section 4).
    Feed,
    /// The archive document of this number.
    Archive(u32),
    /// The member entry of this number (RFC 5023 section 9).
    Member(u32),
}

const FEED: &[u8] = b"feed";

const ARCHIVE: &[u8] = b"archive/";

const MEMBER: &[u8] = b"member/";

/// Appends bytes to a vector that has room for them.
pub(crate) fn append(out: &mut Vec<u8>, bytes: &[u8])
    requires { vec_len out.old + length bytes.now ≤ vec_capacity out.old }
    ensures items { out.new.items ≡ out.old.items ++ bytes.now }
    ensures len { vec_len out.new ≡ vec_len out.old + length bytes.now }
    ensures capacity { vec_capacity out.old ≤ vec_capacity out.new }
{
    // With room for the bytes the result is `Ok`.
    let _ = out.extend_from_slice(bytes);
}

/// Appends a word and a decimal number to a vector that has room for them.
fn append_numbered(out: &mut Vec<u8>, word: &[u8], number: u32)
    requires { vec_len out.old + length word.now + length (decimal number) ≤ vec_capacity out.old }
    ensures { out.new.items ≡ out.old.items ++ (word.now ++ decimal number) }
{
    append(out, word);
    append(out, Buffer::new().format(number).as_bytes());
}

/// Appends the part of an address after the base to a vector that has room for it.
pub(crate) fn append_suffix(out: &mut Vec<u8>, address: Address)
    requires { vec_len out.old + length (suffix_text address) ≤ vec_capacity out.old }
    ensures { out.new.items ≡ out.old.items ++ suffix_text address }
{
    match address {
        Address::Feed => append(out, FEED),
        Address::Archive(number) => append_numbered(out, ARCHIVE, number),
        Address::Member(number) => append_numbered(out, MEMBER, number),
    }
}

/// The length of the part of an address after the base.
pub(crate) fn suffix_len(address: Address) -> usize
    ensures length { result ≡ length (suffix_text address) }
    ensures bound { result ≤ suffix_limit }
{
    match address {
        Address::Feed => FEED.len(),
        Address::Archive(number) => ARCHIVE.len() + Buffer::new().format(number).len(),
        Address::Member(number) => MEMBER.len() + Buffer::new().format(number).len(),
    }
}

/// Parses the part of an address after the base. `None` if it is no document's.
pub(crate) fn read_suffix(suffix: &[u8]) -> Option<Address>
    ensures found { IfSome result (λ address. IsAddress address × (suffix.now ≡ suffix_text address)) }
    ensures only { (address : Address) → IsAddress address → suffix.now ≡ suffix_text address
        → result ≡ Some address }
{
    if suffix == FEED {
        return Some(Address::Feed);
    }
    if let Some(digits) = after(suffix, ARCHIVE) {
        return Some(Address::Archive(whole_number(digits)?));
    }
    let digits = after(suffix, MEMBER)?;
    Some(Address::Member(whole_number(digits)?))
}
