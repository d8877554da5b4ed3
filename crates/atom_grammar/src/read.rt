ghost use Rattle.std.specs.Prelude.{◌≡◌, ◌⊎◌, ℕ, ◌≤◌, length, Ok, Err, IfOk, IfSome};
ghost use Rattle.atom_writer.specs.Doc.{DocValue, IsDoc};
ghost use Rattle.atom_writer.specs.declared.doc.Kind.TheVariants.{Archive};
ghost use Rattle.atom_writer.specs.Pieces.{text};
ghost use Rattle.atom_grammar.specs.FeedParts.{IsKind};
ghost use Rattle.atom_grammar.specs.Progress.{KeepsBody, ReadsHead, ReadsRest};
ghost use Rattle.atom_grammar.specs.Refusal.{IsPlaceOfRefusal, IsNoDocument};
ghost use Rattle.atom_grammar.specs.Stages.{ReadsOpening, ReadsLinks, ReadsPrevLink};

use crate::body::Body;
use crate::doc_reader::DocReader;
use crate::opening::{Opening, Own};
use crate::part_fault::PartFault;
use crate::pieces::Pieces;
use atom_values::Many;
use atom_writer::{Doc, FeedName, Kind};
use chain_links::Address;
use std::alloc::{AllocError, Global};
use std::error::Error;
use std::fmt;

const DECLARATION: &[u8] = b"<?xml version=\"1.0\" encoding=\"utf-8\"?>\n";

const OPEN_TAG: &[u8] = b"<feed xmlns=\"http://www.w3.org/2005/Atom\" \
xmlns:fh=\"http://purl.org/syndication/history/1.0\" xmlns:at=\"http://purl.org/atompub/tombstones/1.0\" \
xmlns:app=\"http://www.w3.org/2007/app\" xmlns:sp=\"urn:archived-feed:span:1\">\n";

/// The greatest length of a text that [`read_doc`] takes, in bytes.
pub const MAX_DOCUMENT: usize = 67_108_864;

/// Why bytes are not read as a document.
#[derive(Clone, Copy, Debug, PartialEq, Eq)]
pub enum ReadFault {
    /// The bytes are the text of no document. The first piece that isn't allowed there begins at offset `at`.
    NotADocument { at: usize },
    /// Out of memory.
    NoMemory,
}

impl fmt::Display for ReadFault {
    fn fmt<W: fmt::Write>(&self, f: &mut fmt::Formatter<W>) -> fmt::Result {
        match self {
            ReadFault::NotADocument { at } => {
                write!(
                    f,
                    "not a feed document: no piece of one begins at byte {at}"
                )
            }
            ReadFault::NoMemory => write!(f, "out of memory"),
        }
    }
}

impl Error for ReadFault {}

impl From<AllocError> for ReadFault {
    ghost use Rattle.std.specs.Prelude.{◌≡◌};
    ghost use Rattle.atom_grammar.specs.declared.read.ReadFault.TheVariants.{NoMemory};

    ghost from_gives = { λ _ fault. fault ≡ NoMemory };

    fn from(_error: AllocError) -> ReadFault {
        ReadFault::NoMemory
    }
}

/// Reads the canonical text of a document.
///
/// `NotADocument` exactly if the bytes are the text of no document. Its `at` is the total length of the longest list of
/// whole pieces that the bytes begin with and that begins the list of pieces of some document. `NoMemory` if there is
/// no memory for the document.
///
/// The bytes are read once. A text that comes in parts is read by [`DocReader`].
pub fn read_doc(alloc: Global, bytes: &[u8]) -> Result<Doc, ReadFault>
    requires { length bytes.now ≤ MAX_DOCUMENT }
    // The bytes are the text of the document that is returned.
    ensures found { IfOk result (λ d. IsDoc d × (bytes.now ≡ text d)) }
    // Each document's text is read as that document, unless memory runs out.
    ensures only { (d : DocValue) → IsDoc d → bytes.now ≡ text d
        → (result ≡ Ok d) ⊎ (result ≡ Err ReadFault.NoMemory) }
    // A refusal states why and where.
    ensures refused { (at : ℕ) → result ≡ Err (ReadFault.NotADocument at)
        → IsNoDocument bytes.now × IsPlaceOfRefusal bytes.now at }
{
    let mut reader = DocReader::new(alloc);
    // `finish` returns the same error.
    let _ = reader.feed(bytes);
    reader.finish()
}

/// Reads what is left of a document, up to the end of the input.
pub(crate) fn document(
    alloc: Global,
    begun: Option<Body>,
    pieces: &mut Pieces,
) -> Result<Doc, PartFault>
    requires { IfSome begun KeepsBody }
    ensures { ReadsRest begun pieces.old.rest.now result pieces.new.rest.now }
{
    let mut body = match begun {
        Some(body) => body,
        None => head(alloc, pieces)?,
    };
    match body.read_to_end(alloc, pieces) {
        Ok(()) => body.finish().ok_or(PartFault::Mismatch),
        Err(fault) => {
            drop(body);
            Err(fault)
        }
    }
}

/// Reads the pieces up to the span.
pub(crate) fn head(alloc: Global, pieces: &mut Pieces) -> Result<Body, PartFault>
    ensures { ReadsHead pieces.old.rest.now result pieces.new.rest.now }
{
    let Opening {
        name,
        kind,
        updated,
    } = opening(alloc, pieces)?;
    let prev = links(pieces, &name, kind)?;
    let span = pieces.span(kind, prev)?;
    Ok(Body {
        name,
        kind,
        updated,
        prev,
        span,
        items: Many::new(alloc),
        ended: false,
    })
}

/// Reads the pieces that name the feed, and the link to the document itself.
// Each goal has an answer in proofs/, so no search is made.
#[tactic(none)]
fn opening(alloc: Global, pieces: &mut Pieces) -> Result<Opening, PartFault>
    ensures { ReadsOpening pieces.old.rest.now result pieces.new.rest.now }
{
    pieces.fixed(DECLARATION)?;
    pieces.fixed(OPEN_TAG)?;
    let id = pieces.feed_id()?;
    let title = pieces.text(alloc, b"<title>", b"</title>\n")?;
    let updated = pieces.updated()?;
    let author = pieces.text(alloc, b"<author><name>", b"</name></author>\n")?;
    let Own { base, kind } = pieces.own(alloc)?;
    let name = FeedName {
        base,
        id,
        title,
        author,
    };
    Ok(Opening {
        name,
        kind,
        updated,
    })
}

/// Reads the links to the documents before and after this one, and the mark of an archive (RFC 5005 section 4). Returns
/// the number of the archive before it, or 0 if there is none.
// Each goal has an answer in proofs/, so no search is made.
#[tactic(none)]
fn links(pieces: &mut Pieces, name: &FeedName, kind: Kind) -> Result<u32, PartFault>
    requires { IsKind kind }
    ensures { ReadsLinks name.now kind pieces.old.rest.now result pieces.new.rest.now }
{
    match kind {
        Kind::Subscription => match pieces.prev_link(&name.base) {
            Ok(prev) => Ok(prev),
            Err(PartFault::Mismatch) => Ok(0),
            Err(PartFault::NoMemory) => Err(PartFault::NoMemory),
        },
        Kind::Archive(number) => archive_links(pieces, name, number),
    }
}

/// Reads the links and the mark of an archive, as [`links`] does.
// Each goal has an answer in proofs/, so no search is made.
#[tactic(none)]
fn archive_links(pieces: &mut Pieces, name: &FeedName, number: u32) -> Result<u32, PartFault>
    requires { IsKind (Archive number) }
    ensures { ReadsLinks name.now (Archive number) pieces.old.rest.now result pieces.new.rest.now }
{
    let prev = number - 1;
    pieces.link_to(b"current", &name.base, Address::Feed)?;
    archive_prev(pieces, name, prev)?;
    pieces.link_to(b"next-archive", &name.base, Address::Archive(number + 1))?;
    pieces.fixed(b"<fh:archive/>\n")?;
    Ok(prev)
}

/// Reads the link of an archive to the archive `prev`, unless `prev` is 0.
// Each goal has an answer in proofs/, so no search is made.
#[tactic(none)]
fn archive_prev(pieces: &mut Pieces, name: &FeedName, prev: u32) -> Result<(), PartFault>
    ensures { ReadsPrevLink name.now prev pieces.old.rest.now result pieces.new.rest.now }
{
    if prev == 0 {
        return Ok(());
    }
    pieces.link_to(b"prev-archive", &name.base, Address::Archive(prev))
}
