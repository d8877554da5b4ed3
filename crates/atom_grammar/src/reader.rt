ghost use Rattle.std.specs.Prelude.{◌≡◌, ◌==◌, if◌then◌else◌, position, slice_index, ℕ, ◌<◌, ◌^◌, ℤ, length, decimal, IfSome, Some, MatchOption, true};
ghost use Rattle.atom_values.specs.Ascii.{upper_z};
ghost use Rattle.atom_values.specs.Stamp.{IsStamp, printed};
ghost use Rattle.atom_grammar.specs.Parts.{Reads, starts, literal, content, quoted, moment, number, address, member, lacks, IsCutAt};

use crate::part_fault::PartFault;
use atom_values::{AtomText, Stamp, unescape};
use chain_links::{Address, Base};
use deleted_entries::{FeedId, ID_LEN, number_of};
use memchr::memchr;
use std::alloc::Global;

/// The unread input. It is read forward, once. After an `Err` the position is unspecified.
#[derive(Drop)]
pub(crate) struct Reader<'a> {
    pub(crate) rest: &'a [u8],
}

impl<'a> Reader<'a> {
    /// A reader of the whole input.
    pub(crate) fn new(input: &'a [u8]) -> Reader<'a>
        ensures { result.rest.now ≡ input.now }
    {
        Reader { rest: input }
    }

    /// Whether the unread input begins with these bytes.
    pub(crate) fn at(&self, bytes: &[u8]) -> bool
        ensures { result ≡ starts bytes.now self.now.rest.now }
    {
        self.rest.starts_with(bytes)
    }

    /// Reads exactly these bytes.
    pub(crate) fn literal(&mut self, bytes: &[u8]) -> Result<(), PartFault>
        ensures { Reads (literal bytes.now) self.old.rest.now result self.new.rest.now }
    {
        match self.rest.strip_prefix(bytes) {
            Some(rest) => {
                self.rest = rest;
                Ok(())
            }
            None => Err(PartFault::Mismatch),
        }
    }

    /// Reads up to the next `byte`, and returns the bytes before it. `None` if the rest doesn't have it.
    pub(crate) fn up_to(&mut self, byte: u8) -> Option<&'a [u8]>
        ensures { MatchOption result (lacks byte self.old.rest.now ≡ true)
            (λ front. IsCutAt byte self.old.rest.now front.now self.new.rest.now) }
    {
        let at = first(self.rest, byte)?;
        let (front, rest) = self.rest.split_at(at);
        self.rest = rest;
        Some(front)
    }

    /// Reads an escaped text in an element, up to the next tag.
    pub(crate) fn content(&mut self, alloc: Global) -> Result<AtomText, PartFault>
        ensures { Reads content self.old.rest.now result self.new.rest.now }
    {
        let Some(written) = self.up_to(b'<') else {
            return Err(PartFault::Mismatch);
        };
        let Some(text) = unescape(alloc, written, false)? else {
            return Err(PartFault::Mismatch);
        };
        Ok(text)
    }

    /// Reads an escaped text in an attribute, up to the quote.
    pub(crate) fn quoted(&mut self, alloc: Global) -> Result<AtomText, PartFault>
        ensures { Reads quoted self.old.rest.now result self.new.rest.now }
    {
        let Some(written) = self.up_to(b'"') else {
            return Err(PartFault::Mismatch);
        };
        let Some(text) = unescape(alloc, written, true)? else {
            return Err(PartFault::Mismatch);
        };
        Ok(text)
    }

    /// Reads a timestamp in its printed form (RFC 3339 section 5.6).
    pub(crate) fn moment(&mut self) -> Result<Stamp, PartFault>
        ensures { Reads moment self.old.rest.now result self.new.rest.now }
    {
        let Some((written, rest)) = self.rest.split_at_checked(moment_len(self.rest)) else {
            return Err(PartFault::Mismatch);
        };
        let Some(moment) = printed_moment(written) else {
            return Err(PartFault::Mismatch);
        };
        self.rest = rest;
        Ok(moment)
    }

    /// Reads a decimal number below 2 ^ 32 without leading zeros, up to the quote.
    pub(crate) fn number(&mut self) -> Result<u32, PartFault>
        ensures { Reads number self.old.rest.now result self.new.rest.now }
    {
        let Some(digits) = self.up_to(b'"') else {
            return Err(PartFault::Mismatch);
        };
        parse_decimal(digits).ok_or(PartFault::Mismatch)
    }

    /// Reads the address of a document below the base, up to the quote.
    pub(crate) fn address(&mut self, base: &Base) -> Result<Address, PartFault>
        ensures { Reads (address base.now) self.old.rest.now result self.new.rest.now }
    {
        if !self.at(base.text()) {
            return Err(PartFault::Mismatch);
        }
        let Some(written) = self.up_to(b'"') else {
            return Err(PartFault::Mismatch);
        };
        base.read(written).ok_or(PartFault::Mismatch)
    }

    /// Reads the identifier of a member of the feed (RFC 4287 section 4.2.6), and returns the member's number.
    pub(crate) fn member(&mut self, feed: &FeedId) -> Result<u32, PartFault>
        ensures { Reads (member feed.now) self.old.rest.now result self.new.rest.now }
    {
        let Some((id, rest)) = self.rest.split_at_checked(ID_LEN) else {
            return Err(PartFault::Mismatch);
        };
        self.rest = rest;
        number_of(feed, id).ok_or(PartFault::Mismatch)
    }
}

/// The index of the first `byte`.
fn first(text: &[u8], byte: u8) -> Option<usize>
    ensures { result ≡ position (λ x. x == byte) text.now }
{
    memchr(byte, text)
}

/// The length of the printed timestamp that the text begins with: its fraction has three digits or none.
fn moment_len(text: &[u8]) -> usize
    ensures { result ≡ (if slice_index text.now 19 == upper_z then 20 else 24) }
{
    if text.get(19) == Some(&b'Z') { 20 } else { 24 }
}

/// Parses a timestamp in its printed form.
fn printed_moment(text: &[u8]) -> Option<Stamp>
    ensures found { IfSome result (λ z. IsStamp z × (text.now ≡ printed z)) }
    ensures only { (z : ℤ) → IsStamp z → text.now ≡ printed z → result ≡ Some z }
{
    let moment = Stamp::parse(text)?;
    let mut room = [0; 24];
    let length = moment.print(&mut room);
    if &room[..length] == text {
        Some(moment)
    } else {
        None
    }
}

/// Parses a decimal number without leading zeros. Unlike `chain_links::whole_number`, it takes 0.
pub(crate) fn parse_decimal(text: &[u8]) -> Option<u32>
    ensures found { IfSome result (λ n. (n < 2 ^ 32) × (text.now ≡ decimal n)) }
    ensures only { (n : ℕ) → n < 2 ^ 32 → text.now ≡ decimal n → result ≡ Some n }
{
    if text == b"0".as_slice() {
        return Some(0);
    }
    chain_links::whole_number(text)
}
