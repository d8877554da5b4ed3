ghost use Rattle.std.specs.Prelude.{◌≡◌, ◌+◌, ◌<◌, ◌≤◌, true, codes, OnOk, IfOk};
ghost use Rattle.xml_tokens.specs.Tree.{Element as TreeElement, Content as Inner};
ghost use Rattle.xml_tokens.specs.Tree.Content.{nothing};
ghost use Rattle.xml_tokens.specs.Progress.{Point, IsAt, IsElementOf, IsReading, depth_of, left_of, pending, total_of};
ghost use Rattle.feed_reader.specs.Rest.{IsRestRead};
ghost use Rattle.feed_reader.specs.FeedFaults.{is_atom};
ghost use Rattle.feed_reader.specs.FeedReading.{IsDocumentMade, IsEntryTaken, IsFeedSoFar, IsGoneRead, IsGoneTaken, IsLinkTaken};

use crate::children::{Parts, read_children};
use crate::entry::EntryParts;
use crate::fault::FeedWhy;
use crate::link::{is_prev, target};
use crate::text::{Refusal, Required, date, identifier, kept_text, refusal};
use crate::values::{ForeignDoc, ForeignEntry, ForeignGone, MAX_ITEMS};
use atom_values::{AtomText, Bytes, Many, NoMemory, Stamp, trimmed};
use std::alloc::Global;
use xml_tokens::{Element, Elements, TokenFault};

/// The parts of a feed that are read so far. After the first refusal only the required children are noted.
#[derive(Drop)]
pub(crate) struct FeedParts<'d> {
    alloc: Global,
    /// The document's address.
    address: &'d [u8],
    required: Required,
    /// The refusal of the first element in the feed that has one.
    refused: Option<Refusal>,
    id: Option<AtomText>,
    updated: Option<Stamp>,
    prev: Option<Bytes>,
    entries: Many<ForeignEntry, MAX_ITEMS>,
    gone: Many<ForeignGone, MAX_ITEMS>,
}

impl<'d> FeedParts<'d> {
    /// The parts of a feed of which nothing is read.
    pub(crate) fn new(alloc: Global, address: &'d [u8]) -> FeedParts<'d>
        ensures read { IsFeedSoFar nothing result }
        ensures address { result.address.now ≡ address.now }
    {
        FeedParts {
            alloc,
            address,
            required: Required::none(),
            refused: None,
            id: None,
            updated: None,
            prev: None,
            entries: Many::new(alloc),
            gone: Many::new(alloc),
        }
    }

    /// The document of a feed at offset `at` with these parts, or its refusal.
    pub(crate) fn document(self, at: usize) -> Result<ForeignDoc, Refusal>
        ensures { (root : TreeElement) (inner : Inner) → root.place ≡ at
            → is_atom (codes "feed") root.name ≡ true → IsFeedSoFar inner self.entry
            → IsDocumentMade self.entry.address.now root inner result }
    {
        let FeedParts {
            alloc: _,
            address: _,
            required,
            refused,
            id,
            updated,
            prev,
            entries,
            gone,
        } = self;
        if !required.all() {
            return Err((at, FeedWhy::Missing));
        }
        if let Some(refusal) = refused {
            return Err(refusal);
        }
        // Both were read: neither is missing nor refused.
        let (Some(id), Some(updated)) = (id, updated) else {
            return Err((at, FeedWhy::Missing));
        };
        Ok(ForeignDoc {
            id,
            updated,
            prev,
            entries,
            gone,
        })
    }

    /// Takes a link. Returns why it is refused, if it is.
    fn link(&mut self, link: &Element<'_>) -> Result<Option<FeedWhy>, NoMemory>
        ensures taken { IfOk result (λ why. (e : TreeElement) → IsElementOf e link.now
            → IsLinkTaken e self.old self.new why) }
        ensures address { self.new.address.now ≡ self.old.address.now }
    {
        if self.prev.is_some() || !is_prev(self.alloc, link)? {
            return Ok(None);
        }
        self.prev = target(self.alloc, self.address, link)?;
        if self.prev.is_some() {
            Ok(None)
        } else {
            Ok(Some(FeedWhy::BadLink))
        }
    }

    /// Takes a tombstone. Returns why it is refused, if it is.
    fn tombstone(&mut self, tombstone: &Element<'_>) -> Result<Option<FeedWhy>, NoMemory>
        ensures taken { IfOk result (λ why. (e : TreeElement) → IsElementOf e tombstone.now
            → IsGoneTaken e self.old self.new why) }
        ensures address { self.new.address.now ≡ self.old.address.now }
    {
        let gone = match gone_of(self.alloc, tombstone)? {
            Ok(gone) => gone,
            Err(why) => return Ok(Some(why)),
        };
        if self.gone.len() == MAX_ITEMS as usize {
            drop(gone);
            return Ok(Some(FeedWhy::TooMany));
        }
        match self.gone.push(gone) {
            Ok(()) => Ok(None),
            Err(_) => Err(NoMemory),
        }
    }

    /// Reads an entry. Returns its refusal, if it is refused.
    fn entry<'a>(
        &mut self,
        elements: &mut Elements<'a>,
        entry: &Element<'a>,
    ) -> Result<Option<Refusal>, TokenFault>
        requires reading { IsReading elements.old }
        requires inside { 1 ≤ depth_of elements.old }
        ensures read { (from : Point) (e : TreeElement) → IsAt elements.old from → IsElementOf e entry.now
            → IsRestRead (λ inner refusal. IsEntryTaken e self.old self.new inner refusal)
            (total_of elements.old) (pending elements.old) from result elements.new }
        ensures address { self.new.address.now ≡ self.old.address.now }
        ensures depth { OnOk result (depth_of elements.new + 1 ≡ depth_of elements.old) }
        ensures shorter { OnOk result (left_of elements.new < left_of elements.old) }
    {
        let mut parts = EntryParts::new(self.alloc);
        if let Err(fault) = read_children(elements, &mut parts) {
            drop(parts);
            return Err(fault);
        }
        let full = self.entries.len() == MAX_ITEMS as usize;
        let entry = match parts.entry(entry.at, full) {
            Ok(entry) => entry,
            Err(refusal) => return Ok(Some(refusal)),
        };
        match self.entries.push(entry) {
            Ok(()) => Ok(None),
            Err(_) => Err(TokenFault::NoMemory),
        }
    }
}

/// The tombstone that an element's attributes state (RFC 6721 section 3), or why it is refused.
fn gone_of(alloc: Global, element: &Element<'_>) -> Result<Result<ForeignGone, FeedWhy>, NoMemory>
    ensures { IfOk result (λ gone. (e : TreeElement) → IsElementOf e element.now → IsGoneRead e gone) }
{
    let Some(id) = element.attribute(alloc, b"ref")? else {
        return Ok(Err(FeedWhy::Missing));
    };
    let Some(date) = element.attribute(alloc, b"when")? else {
        return Ok(Err(FeedWhy::Missing));
    };
    let Some(when) = Stamp::parse(trimmed(date.as_slice())) else {
        return Ok(Err(FeedWhy::BadDate));
    };
    match kept_text(alloc, trimmed(id.as_slice()))? {
        Ok(id) => Ok(Ok(ForeignGone { id, when })),
        Err(why) => Ok(Err(why)),
    }
}

impl Parts for FeedParts<'_> {
    ghost Read = { IsFeedSoFar };

    ghost fixed = { λ parts. parts.address.now };

    fn child<'a>(
        &mut self,
        elements: &mut Elements<'a>,
        child: &Element<'a>,
    ) -> Result<(), TokenFault> {
        self.required.note(child);
        if self.refused.is_some() {
            return elements.skip();
        }
        if child.is_atom(b"entry") {
            self.refused = self.entry(elements, child)?;
            return Ok(());
        }
        let why = if child.is_atom(b"id") {
            identifier(self.alloc, elements, &mut self.id)?
        } else if child.is_atom(b"updated") {
            date(elements, &mut self.updated)?
        } else {
            let why = if child.is_atom(b"link") {
                self.link(child)?
            } else if child.is_tombstone(b"deleted-entry") {
                self.tombstone(child)?
            } else {
                None
            };
            elements.skip()?;
            why
        };
        self.refused = refusal(child, why);
        Ok(())
    }
}
