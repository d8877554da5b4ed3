ghost use Rattle.std.specs.Prelude.{◌≡◌, ◌++◌, OnOk, OnErr, false};
ghost use Rattle.atom_values.specs.Escape.{escaped};
ghost use Rattle.atom_values.specs.Stamp.{IsStamp};
ghost use Rattle.atom_values.specs.XmlText.{IsAtomText};
ghost use Rattle.deleted_entries.specs.FeedId.{IsFeedId};
ghost use Rattle.atom_writer.specs.Pieces.{joined, declaration_piece, open_piece, id_piece, updated_piece, name_pieces};

use crate::doc::FeedName;
use crate::out::{Out, push_stamp};
use atom_values::{AtomText, NoMemory, Stamp};
use deleted_entries::FeedId;

const DECLARATION: &[u8] = b"<?xml version=\"1.0\" encoding=\"utf-8\"?>\n";

const OPEN_TAG: &[u8] = b"<feed xmlns=\"http://www.w3.org/2005/Atom\" \
xmlns:fh=\"http://purl.org/syndication/history/1.0\" xmlns:at=\"http://purl.org/atompub/tombstones/1.0\" \
xmlns:app=\"http://www.w3.org/2007/app\" xmlns:sp=\"urn:archived-feed:span:1\">\n";

/// Adds the XML declaration (XML 1.0, production 23).
#[tactic(auto, unfolding(crate::specs::Pieces::declaration_piece))]
pub fn push_declaration<W: Out>(out: &mut W) -> Result<(), NoMemory>
    ensures added { OnOk result (W.adds out.old out.new declaration_piece) }
    ensures failed { OnErr result W.can_fail }
{
    out.push(DECLARATION)?;
    Ok(())
}

/// Adds the feed's open tag, with the namespaces.
#[tactic(auto, unfolding(crate::specs::Pieces::open_piece))]
fn push_open_tag<W: Out>(out: &mut W) -> Result<(), NoMemory>
    ensures added { OnOk result (W.adds out.old out.new open_piece) }
    ensures failed { OnErr result W.can_fail }
{
    out.push(OPEN_TAG)?;
    Ok(())
}

/// Adds the piece with the feed's identifier.
fn push_id_piece<W: Out>(out: &mut W, id: &FeedId) -> Result<(), NoMemory>
    ensures added { OnOk result (W.adds out.old out.new (id_piece id.now)) }
    ensures failed { OnErr result W.can_fail }
    ensures rules { OnOk result (IsFeedId id.now) }
{
    let text = id.print();
    out.push(b"<id>urn:uuid:")?;
    out.push(&text)?;
    out.push(b"</id>\n")?;
    Ok(())
}

/// Adds a text between its tags.
pub fn push_between<W: Out>(
    out: &mut W,
    before: &[u8],
    text: &AtomText,
    after: &[u8],
) -> Result<(), NoMemory>
    ensures added { OnOk result (W.adds out.old out.new
        (before.now ++ escaped false text.now ++ after.now)) }
    ensures failed { OnErr result W.can_fail }
    ensures rules { OnOk result (IsAtomText text.now) }
{
    out.push(before)?;
    out.push_escaped(text, false)?;
    out.push(after)?;
    Ok(())
}

/// Adds the piece with the timestamp of the last change.
fn push_updated_piece<W: Out>(out: &mut W, updated: Stamp) -> Result<(), NoMemory>
    ensures added { OnOk result (W.adds out.old out.new (updated_piece updated)) }
    ensures failed { OnErr result W.can_fail }
    ensures rules { OnOk result (IsStamp updated) }
{
    out.push(b"<updated>")?;
    push_stamp(out, updated)?;
    out.push(b"</updated>\n")?;
    Ok(())
}

/// Adds the pieces that name the feed, from the XML declaration to the author.
pub fn push_name<W: Out>(out: &mut W, name: &FeedName, updated: Stamp) -> Result<(), NoMemory>
    ensures added { OnOk result (W.adds out.old out.new (joined (name_pieces name.now updated))) }
    ensures failed { OnErr result W.can_fail }

    ensures id { OnOk result (IsFeedId name.now.id) }
    ensures title { OnOk result (IsAtomText name.now.title) }
    ensures updated { OnOk result (IsStamp updated) }
    ensures author { OnOk result (IsAtomText name.now.author) }
{
    push_declaration(out)?;
    push_open_tag(out)?;
    push_id_piece(out, &name.id)?;
    push_between(out, b"<title>", &name.title, b"</title>\n")?;
    push_updated_piece(out, updated)?;
    push_between(out, b"<author><name>", &name.author, b"</name></author>\n")?;
    Ok(())
}
