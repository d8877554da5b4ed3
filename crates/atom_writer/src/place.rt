ghost use Rattle.std.specs.Prelude.{◌≡◌, ◌+◌, ◌<◌, ◌^◌, ◌++◌, IsTrue, OnOk, OnErr};
ghost use Rattle.chain_links.specs.Address.{IsAddress};
ghost use Rattle.chain_links.specs.Base.{IsBase};
ghost use Rattle.atom_writer.specs.Doc.{HasNext, is_placed};
ghost use Rattle.atom_writer.specs.Pieces.{link_piece, joined, span_piece, prev_pieces, current_pieces, next_pieces, place_pieces};

use crate::doc::{FeedName, Kind};
use crate::out::{Out, push_number};
use atom_values::NoMemory;
use chain_links::{Address, Span};

/// Adds the piece of a link between the feed's documents (RFC 5005 section 4).
fn push_link<W: Out>(out: &mut W, rel: &[u8], name: &FeedName, to: Address) -> Result<(), NoMemory>
    requires { IsAddress to }
    ensures added { OnOk result (W.adds out.old out.new (link_piece rel.now name.now to)) }
    ensures failed { OnErr result W.can_fail }
    ensures base { OnOk result (IsBase name.now.base) }
{
    out.push(b"<link rel=\"")?;
    out.push(rel)?;
    out.push(b"\" href=\"")?;
    out.push_address(&name.base, to)?;
    out.push(b"\"/>\n")?;
    Ok(())
}

/// Adds the link to the archive before the document, if there is one.
#[tactic(auto, unfolding(crate::specs::Pieces::prev_pieces))]
fn push_prev<W: Out>(out: &mut W, name: &FeedName, prev: u32) -> Result<(), NoMemory>
    ensures added { OnOk result (W.adds out.old out.new (joined (prev_pieces name.now prev))) }
    ensures failed { OnErr result W.can_fail }
{
    if prev == 0 {
        return Ok(());
    }
    push_link(out, b"prev-archive", name, Address::Archive(prev))?;
    Ok(())
}

/// Adds an archive's link to the subscription document (RFC 5005 section 4).
#[tactic(auto, unfolding(crate::specs::Pieces::current_pieces, crate::specs::Pieces::joined))]
fn push_current<W: Out>(out: &mut W, name: &FeedName, kind: Kind) -> Result<(), NoMemory>
    ensures added { OnOk result (W.adds out.old out.new (joined (current_pieces name.now kind))) }
    ensures failed { OnErr result W.can_fail }
{
    match kind {
        Kind::Subscription => Ok(()),
        Kind::Archive(_) => push_link(out, b"current", name, Address::Feed),
    }
}

/// Adds an archive's link to the next archive, and the mark of an archive (RFC 5005 section 4).
#[tactic(auto, unfolding(crate::specs::Pieces::next_pieces, crate::specs::Pieces::joined))]
fn push_next<W: Out>(out: &mut W, name: &FeedName, kind: Kind) -> Result<(), NoMemory>
    requires { HasNext kind }
    ensures added { OnOk result (W.adds out.old out.new (joined (next_pieces name.now kind))) }
    ensures failed { OnErr result W.can_fail }
{
    let Kind::Archive(number) = kind else {
        return Ok(());
    };
    push_link(out, b"next-archive", name, Address::Archive(number + 1))?;
    out.push(b"<fh:archive/>\n")?;
    Ok(())
}

/// Adds the piece with the span.
fn push_span_piece<W: Out>(out: &mut W, span: Span) -> Result<(), NoMemory>
    ensures added { OnOk result (W.adds out.old out.new (span_piece span)) }
    ensures failed { OnErr result W.can_fail }
    ensures first { OnOk result (span.first < 2 ^ 32) }
    ensures last { OnOk result (span.last < 2 ^ 32) }
{
    out.push(b"<sp:span first=\"")?;
    push_number(out, span.first)?;
    out.push(b"\" last=\"")?;
    push_number(out, span.last)?;
    out.push(b"\"/>\n")?;
    Ok(())
}

/// Adds the pieces that place the document in the chain: its links and its span.
pub fn push_place<W: Out>(
    out: &mut W,
    name: &FeedName,
    kind: Kind,
    span: Span,
    prev: u32,
) -> Result<(), NoMemory>
    requires { IsTrue (is_placed kind span prev) }
    ensures added { OnOk result (W.adds out.old out.new
        (joined (place_pieces name.now kind span prev))) }
    ensures failed { OnErr result W.can_fail }

    ensures base { OnOk result (IsBase name.now.base) }
    ensures first { OnOk result (span.first < 2 ^ 32) }
    ensures last { OnOk result (span.last < 2 ^ 32) }
    ensures prev { OnOk result (prev < 2 ^ 32) }
{
    push_link(out, b"self", name, kind.address())?;
    push_current(out, name, kind)?;
    push_prev(out, name, prev)?;
    push_next(out, name, kind)?;
    push_span_piece(out, span)?;
    Ok(())
}
