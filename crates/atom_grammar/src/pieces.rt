ghost use Rattle.std.specs.Prelude.{◌≡◌, IsTrue, codes, nat_eq};
ghost use Rattle.std.specs.List.{list_any};
ghost use Rattle.chain_links.specs.Address.{IsAddress};
ghost use Rattle.deleted_entries.specs.Item.{item_number};
ghost use Rattle.atom_writer.specs.Doc.{span_len};
ghost use Rattle.atom_grammar.specs.FeedParts.{ReadsPiece, feed_id, updated, own, link_to, prev_link, span_of, item_behind};
ghost use Rattle.atom_grammar.specs.Items.{element};
ghost use Rattle.atom_grammar.specs.Parts.{literal, starts};

use crate::opening::Own;
use crate::part_fault::PartFault;
use crate::reader::Reader;
use atom_values::{AtomText, Stamp};
use atom_writer::{FeedName, Kind, MAX_ITEMS, is_placed};
use chain_links::{Address, Base, Span};
use deleted_entries::{FeedId, Item};
use std::alloc::Global;

/// The last piece of a document.
pub(crate) const END: &[u8] = b"</feed>\n";

/// The unread input. Each method consumes one whole piece, or on `Mismatch` nothing.
#[derive(Drop)]
pub(crate) struct Pieces<'a> {
    pub(crate) rest: &'a [u8],
}

// Each goal has an answer in proofs/, so no search is made.
#[tactic(none)]
impl Pieces<'_> {
    /// Reads a piece that is always the same.
    pub(crate) fn fixed(&mut self, piece: &[u8]) -> Result<(), PartFault>
        ensures { ReadsPiece (literal piece.now) self.old.rest.now result self.new.rest.now }
    {
        let mut reader = Reader::new(self.rest);
        reader.literal(piece)?;
        self.rest = reader.rest;
        Ok(())
    }

    /// Whether the document ends here.
    pub(crate) fn at_end(&self) -> bool
        ensures { result ≡ starts (codes "</feed>\n") self.now.rest.now }
    {
        Reader::new(self.rest).at(END)
    }

    /// Reads the piece with the feed's identifier.
    pub(crate) fn feed_id(&mut self) -> Result<FeedId, PartFault>
        ensures { ReadsPiece feed_id self.old.rest.now result self.new.rest.now }
    {
        let mut reader = Reader::new(self.rest);
        let id = reader.feed_id()?;
        self.rest = reader.rest;
        Ok(id)
    }

    /// Reads a piece with a text between these tags.
    pub(crate) fn text(
        &mut self,
        alloc: Global,
        start: &[u8],
        end: &[u8],
    ) -> Result<AtomText, PartFault>
        requires { IsTrue (starts (codes "</") end.now) }
        ensures { ReadsPiece (element start.now end.now) self.old.rest.now result self.new.rest.now }
    {
        let mut reader = Reader::new(self.rest);
        let text = reader.element(alloc, start, end)?;
        self.rest = reader.rest;
        Ok(text)
    }

    /// Reads the piece with the timestamp of the last change.
    pub(crate) fn updated(&mut self) -> Result<Stamp, PartFault>
        ensures { ReadsPiece updated self.old.rest.now result self.new.rest.now }
    {
        let mut reader = Reader::new(self.rest);
        let moment = reader.date(b"<updated>", b"</updated>\n")?;
        self.rest = reader.rest;
        Ok(moment)
    }

    /// Reads the link to the document itself.
    pub(crate) fn own(&mut self, alloc: Global) -> Result<Own, PartFault>
        ensures { ReadsPiece own self.old.rest.now result self.new.rest.now }
    {
        let mut reader = Reader::new(self.rest);
        let own = reader.own(alloc)?;
        self.rest = reader.rest;
        Ok(own)
    }

    /// Reads a link of this relation to this document of the feed.
    pub(crate) fn link_to(&mut self, rel: &[u8], base: &Base, to: Address) -> Result<(), PartFault>
        requires { IsAddress to }
        ensures { ReadsPiece (link_to rel.now base.now to) self.old.rest.now result self.new.rest.now }
    {
        let mut reader = Reader::new(self.rest);
        let address = reader.feed_link(rel, base)?;
        if address != to {
            return Err(PartFault::Mismatch);
        }
        self.rest = reader.rest;
        Ok(())
    }

    /// Reads the link to the archive before the document, and returns its number.
    pub(crate) fn prev_link(&mut self, base: &Base) -> Result<u32, PartFault>
        ensures { ReadsPiece (prev_link base.now) self.old.rest.now result self.new.rest.now }
    {
        let mut reader = Reader::new(self.rest);
        let Address::Archive(number) = reader.feed_link(b"prev-archive", base)? else {
            return Err(PartFault::Mismatch);
        };
        self.rest = reader.rest;
        Ok(number)
    }

    /// Reads the piece with the span of a document of this kind, which comes after the archive `prev`.
    pub(crate) fn span(&mut self, kind: Kind, prev: u32) -> Result<Span, PartFault>
        ensures { ReadsPiece (span_of kind prev) self.old.rest.now result self.new.rest.now }
    {
        let mut reader = Reader::new(self.rest);
        let span = reader.span()?;
        if !is_placed(kind, span, prev) || operations(span) > u64::from(MAX_ITEMS) {
            return Err(PartFault::Mismatch);
        }
        self.rest = reader.rest;
        Ok(span)
    }

    /// Reads the piece of an item whose member has none of the items `before`.
    pub(crate) fn item(
        &mut self,
        alloc: Global,
        name: &FeedName,
        before: &[Item],
    ) -> Result<Item, PartFault>
        ensures { ReadsPiece (item_behind name.now before.now) self.old.rest.now result self.new.rest.now }
    {
        let mut reader = Reader::new(self.rest);
        let item = reader.item(alloc, name)?;
        if has_number(before, item.number()) {
            return Err(PartFault::Mismatch);
        }
        self.rest = reader.rest;
        Ok(item)
    }
}

/// The number of operations that a span covers.
pub(crate) fn operations(span: Span) -> u64
    ensures { result ≡ span_len span }
{
    (u64::from(span.last) + 1).saturating_sub(u64::from(span.first))
}

/// Whether one of the items has this number.
fn has_number(items: &[Item], number: u32) -> bool
    ensures { result ≡ list_any (λ item. nat_eq number (item_number item)) items.now }
{
    items.iter().any(|item| number == item.number())
}
