ghost use Rattle.std.specs.Prelude.{◌≡◌, ℕ, List, ◌∷◌, ◌++◌, true, Some, IfSome, IsSomeAnd, MatchOption};
ghost use Rattle.atom_values.specs.Ascii.{slash};
ghost use Rattle.chain_links.specs.Address.{suffix_text};
ghost use Rattle.deleted_entries.specs.FeedId.{IsFeedId, feed_text};
ghost use Rattle.atom_writer.specs.Pieces.{own_address};
ghost use Rattle.atom_writer.specs.declared.doc.Kind.{Kind};
ghost use Rattle.atom_grammar.specs.FeedParts.{IsKind, uuid, feed_id, own_address as own_text, own, feed_link, span};
ghost use Rattle.atom_grammar.specs.Parts.{Reads, lacks};

use crate::opening::Own;
use crate::part_fault::PartFault;
use crate::reader::{Reader, parse_decimal};
use atom_writer::{Kind, MAX_ARCHIVE};
use chain_links::{Address, Base, BaseFault, Span};
use deleted_entries::FeedId;
use std::alloc::Global;

/// The length of a UUID's text with hyphens (RFC 9562 section 4).
const UUID_LEN: usize = 36;

// Each goal has an answer in proofs/, so no search is made.
#[tactic(none)]
impl Reader<'_> {
    /// Reads the text of the feed's UUID.
    fn uuid(&mut self) -> Result<FeedId, PartFault>
        ensures { Reads uuid self.old.rest.now result self.new.rest.now }
    {
        let Some((text, rest)) = self.rest.split_at_checked(UUID_LEN) else {
            return Err(PartFault::Mismatch);
        };
        self.rest = rest;
        let Some(id) = read_id(text) else {
            return Err(PartFault::Mismatch);
        };
        Ok(id)
    }

    /// Reads the piece with the feed's identifier (RFC 4287 section 4.2.6).
    pub(crate) fn feed_id(&mut self) -> Result<FeedId, PartFault>
        ensures { Reads feed_id self.old.rest.now result self.new.rest.now }
    {
        self.literal(b"<id>urn:uuid:")?;
        let id = self.uuid()?;
        self.literal(b"</id>\n")?;
        Ok(id)
    }

    /// Reads the document's own address, up to the quote. The base address is the part before the last `feed`, or
    /// before `archive/` and a number.
    fn own_address(&mut self, alloc: Global) -> Result<Own, PartFault>
        ensures { Reads own_text self.old.rest.now result self.new.rest.now }
    {
        let Some(written) = self.up_to(b'"') else {
            return Err(PartFault::Mismatch);
        };
        let Some((base, kind)) = split_own(written) else {
            return Err(PartFault::Mismatch);
        };
        match Base::parse(alloc, base) {
            Ok(base) => Ok(Own { base, kind }),
            Err(BaseFault::BadBase) => Err(PartFault::Mismatch),
            Err(BaseFault::NoMemory) => Err(PartFault::NoMemory),
        }
    }

    /// Reads the link to the document itself (RFC 4287 section 4.2.7.2).
    pub(crate) fn own(&mut self, alloc: Global) -> Result<Own, PartFault>
        ensures { Reads own self.old.rest.now result self.new.rest.now }
    {
        self.literal(b"<link rel=\"self\" href=\"")?;
        let own = self.own_address(alloc)?;
        self.literal(b"\"/>\n")?;
        Ok(own)
    }

    /// Reads a link of this relation (RFC 5005 section 4), and returns the document of the feed that it names.
    pub(crate) fn feed_link(&mut self, rel: &[u8], base: &Base) -> Result<Address, PartFault>
        ensures { Reads (feed_link rel.now base.now) self.old.rest.now result self.new.rest.now }
    {
        self.literal(b"<link rel=\"")?;
        self.literal(rel)?;
        self.literal(b"\" href=\"")?;
        let address = self.address(base)?;
        self.literal(b"\"/>\n")?;
        Ok(address)
    }

    /// Reads the piece with the span.
    pub(crate) fn span(&mut self) -> Result<Span, PartFault>
        ensures { Reads span self.old.rest.now result self.new.rest.now }
    {
        self.literal(b"<sp:span first=\"")?;
        let first = self.number()?;
        self.literal(b"\" last=\"")?;
        let last = self.number()?;
        self.literal(b"\"/>\n")?;
        Ok(Span { first, last })
    }
}

/// Parses a feed's identifier in its printed form.
fn read_id(text: &[u8]) -> Option<FeedId>
    ensures found { IfSome result (λ id. IsFeedId id × (text.now ≡ feed_text id)) }
    ensures only { (id : List ℕ) → IsFeedId id → text.now ≡ feed_text id → result ≡ Some id }
{
    let id = FeedId::parse(text)?;
    if id.print().as_slice() == text {
        Some(id)
    } else {
        None
    }
}

/// Splits the text at its last `/`, which neither part has.
fn split_at_last_slash(text: &[u8]) -> Option<(&[u8], &[u8])>
    ensures { MatchOption result (lacks slash text.now ≡ true)
        (λ x. (text.now ≡ x.0.now ++ slash ∷ x.1.now) × (lacks slash x.1.now ≡ true)) }
{
    let at = text.iter().rposition(|byte| *byte == b'/')?;
    Some((&text[..at], &text[at + 1..]))
}

/// Splits the address of a document into the base address and the kind of document.
fn split_own(text: &[u8]) -> Option<(&[u8], Kind)>
    ensures found { IfSome result (λ x. IsKind x.1 × (text.now ≡ x.0.now ++ suffix_text (own_address x.1))) }
    ensures only { (base : List ℕ) (kind : Kind) → IsKind kind
        → text.now ≡ base ++ suffix_text (own_address kind)
        → IsSomeAnd result (λ x. (x.0.now ≡ base) × (x.1 ≡ kind)) }
{
    if let Some(base) = text.strip_suffix(b"feed") {
        return Some((base, Kind::Subscription));
    }
    let (front, digits) = split_at_last_slash(text)?;
    let base = front.strip_suffix(b"archive")?;
    let number = parse_decimal(digits)?;
    if number == 0 || number > MAX_ARCHIVE {
        return None;
    }
    Some((base, Kind::Archive(number)))
}
