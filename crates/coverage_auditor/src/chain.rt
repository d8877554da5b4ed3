ghost use Rattle.std.specs.Prelude.{◌≡◌, ◌<◌, ◌≤◌, ◌↔◌, ◌∷◌, ◌++◌, [], All, IfOk, IsTrue, List, OnOk, Some, length, slice_get};
ghost use Rattle.atom_writer.specs.Doc.{DocValue};
ghost use Rattle.chain_links.specs.Address.{IsAddress};
ghost use Rattle.doc_source.specs.declared.offer.Offer.{Offer as OfferValue};
ghost use Rattle.coverage_auditor.specs.Chain.{HasFirstName, IsOfFeed, IsShelf};
ghost use Rattle.coverage_auditor.specs.Checks.{KeepsDocuments, PlacesLine, ReadsLine, ReadsLines};
ghost use Rattle.coverage_auditor.specs.Finding.{BelongsTo, offer_of};
ghost use Rattle.coverage_auditor.specs.Offers.{IsIndexOf};
ghost use Rattle.coverage_auditor.specs.Verdict.{AreShort};

use crate::document::Document;
use crate::halt::Halt;
use crate::offers::{Key, Offers, line_key};
use crate::verdict::Verdict;
use atom_grammar::{MAX_DOCUMENT, ReadFault};
use atom_values::NoMemory;
use atom_writer::FeedName;
use coverage_certificate::{Certificate, CoverLine};
use doc_source::Offer;
use mirror_walk::{Outline, Outlined};
use std::alloc::Global;
use std::collections::BTreeMap;
use std::marker::Model;

/// A document of a line, and the feed's name as it states it.
#[derive(Drop)]
struct Found<'p> {
    name: FeedName,
    document: Document<'p>,
}

/// Whether the document states the line's address, and the base and the identifier of the certificate.
fn belongs_to(certificate: &Certificate, line: &CoverLine, read: &Outlined) -> bool
    requires { read.now.name ≡ read.now.outline.name }
    ensures { IsTrue result ↔ BelongsTo certificate.now line.now read.now.outline }
{
    read.outline.kind().address() == line.address
        && read.name.base.text() == certificate.base.text()
        && read.name.id == certificate.feed
}

/// Reads the bytes of a line's first offer as the line's document.
fn read_line<'p>(
    alloc: Global,
    certificate: &Certificate,
    line: &CoverLine,
    bytes: &'p [u8],
) -> Result<Found<'p>, Halt>
    requires { length bytes.now ≤ MAX_DOCUMENT }
    ensures { (pile : List OfferValue) (offer : OfferValue)
        → offer_of certificate.now.base pile line.now ≡ Some offer → offer.bytes ≡ bytes.now
        → ReadsLine certificate.now pile line.now result }
{
    let address = line.address;
    let read = match Outline::read(alloc, bytes) {
        Ok(read) => read,
        Err(ReadFault::NotADocument { .. }) => {
            return Err(Halt::Refused(Verdict::NotADocument { address }));
        }
        Err(ReadFault::NoMemory) => return Err(Halt::NoMemory),
    };
    if belongs_to(certificate, line, &read) {
        let Outlined { name, outline } = read;
        let document = Document::new(outline, bytes);
        Ok(Found { name, document })
    } else {
        drop(read);
        Err(Halt::Refused(Verdict::WrongDocument { address }))
    }
}

/// The offer with this index.
fn offer_at(pile: &[Offer], at: usize) -> &Offer
    requires { at < length pile.now }
    ensures { slice_get pile.now at ≡ Some result.now }
{
    &pile[at]
}

/// The documents that were read of a pile. Each is read once, however many lines name it.
#[derive(Drop)]
struct Shelf<'p> {
    offers: Offers,
    documents: Vec<Document<'p>>,
    /// The name that the first of the documents states.
    name: Option<FeedName>,
    /// The index of each line's document, by the line's key.
    read: BTreeMap<Key, usize>,
}

impl<'p> Shelf<'p> {
    /// The index of a line's document, which is read unless an earlier line named it.
    fn place(
        &mut self,
        alloc: Global,
        certificate: &Certificate,
        pile: &'p [Offer],
        line: &CoverLine,
    ) -> Result<usize, Halt>
        requires short { AreShort pile.now }
        requires address { IsAddress line.now.address }
        requires offers { IsIndexOf certificate.now.base pile.now self.old.offers.firsts
            self.old.offers.places }
        requires shelf { IsShelf certificate.now pile.now self.old.documents.items self.old.read }
        requires name { HasFirstName self.old.documents.items self.old.name }
        ensures place { PlacesLine certificate.now pile.now line.now self.new.documents.items result }
        ensures shelf { OnOk result
            (IsShelf certificate.now pile.now self.new.documents.items self.new.read) }
        ensures longer { OnOk result (KeepsDocuments self.old.documents.items self.new.documents.items) }
        ensures first { IfOk result (λ at. self.old.documents.items ≡ [] → at ≡ 0) }
        ensures name { OnOk result (HasFirstName self.new.documents.items self.new.name) }
        ensures offers { self.new.offers ≡ self.old.offers }
    {
        let key = line_key(line);
        if let Some(at) = self.read.get(&key) {
            return Ok(*at);
        }
        let offer = offer_at(pile, self.offers.place(line)?);
        let found = read_line(alloc, certificate, line, offer.bytes.slice())?;
        let at = self.documents.len();
        self.keep(found)?;
        self.read.insert(key, at)?;
        Ok(at)
    }

    /// Adds a document behind the others, and keeps the first one's name.
    fn keep(&mut self, found: Found<'p>) -> Result<(), NoMemory>
        requires name { found.name ≡ found.document.name }
        requires first { HasFirstName self.old.documents.items self.old.name }
        ensures documents { OnOk result
            (self.new.documents.items ≡ self.old.documents.items ++ found.entry.document ∷ []) }
        ensures first { OnOk result (HasFirstName self.new.documents.items self.new.name) }
        ensures offers { self.new.offers ≡ self.old.offers }
        ensures read { self.new.read ≡ self.old.read }
    {
        let Found { name, document } = found;
        let is_first = self.documents.is_empty();
        self.documents.push(document)?;
        if is_first {
            self.name = Some(name);
        }
        Ok(())
    }
}

/// The documents of a certificate's lines, in the lines' order, and the name that the first of them states.
/// An outline of a document is in memory once, however many lines name it. The texts stay in the pile.
#[derive(Drop)]
pub(crate) struct Chain<'p> {
    name: FeedName,
    documents: Vec<Document<'p>>,
    /// The index of each line's document.
    places: Vec<usize>,
}

impl<'p> Model for Chain<'p> {
    ghost use Rattle.std.specs.Prelude.{List};
    ghost use Rattle.atom_writer.specs.Doc.{DocValue};
    ghost use Rattle.coverage_auditor.specs.Chain.{IsChainOf, shown};

    ghost Value = { List DocValue };

    ghost view = { λ chain. shown chain.documents.items chain.places.items };

    ghost invariant = { λ chain. IsChainOf chain.name chain.documents.items chain.places.items };
}

impl<'p> Chain<'p> {
    /// Reads the documents of all lines from a pile. A refusal is that of the first line without a document.
    pub(crate) fn read(
        alloc: Global,
        certificate: &Certificate,
        pile: &'p [Offer],
    ) -> Result<Chain<'p>, Halt>
        requires { AreShort pile.now }
        ensures { ReadsLines certificate.now pile.now result }
    {
        let lines = certificate.lines.as_slice();
        let mut shelf = Shelf {
            offers: Offers::of(alloc, &certificate.base, pile)?,
            documents: Vec::new(alloc),
            name: None,
            read: BTreeMap::new(alloc),
        };
        let mut places = Vec::new(alloc);
        for line in lines {
            let at = shelf.place(alloc, certificate, pile, line)?;
            places.push(at)?;
        }
        let Shelf {
            offers: _,
            documents,
            name,
            read: _,
        } = shelf;
        Ok(Chain {
            // A certificate has a first line.
            name: name.unwrap(),
            documents,
            places,
        })
    }

    /// The number of lines.
    pub(crate) fn len(&self) -> usize
        ensures { result ≡ length self.now }
    {
        self.places.len()
    }

    /// The document of the line with this index.
    pub(crate) fn document(&self, at: usize) -> &Document<'p>
        requires { at < length self.now }
        ensures { slice_get self.now at ≡ Some result.now }
    {
        &self.documents[self.places[at]]
    }

    /// The name that the first line's document states. All documents are of this feed.
    pub(crate) fn name(&self) -> &FeedName
        ensures first { (newest : DocValue) (others : List DocValue) → self.now ≡ newest ∷ others
            → result.now ≡ newest.name }
        ensures feed { All (IsOfFeed result.now) self.now }
    {
        &self.name
    }
}
