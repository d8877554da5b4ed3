ghost use Rattle.std.specs.Prelude.{◌≡◌, ◌++◌, length, OnOk, OnErr};
ghost use Rattle.atom_values.specs.Entry.{IsEntry};
ghost use Rattle.chain_links.specs.Base.{IsBase};
ghost use Rattle.deleted_entries.specs.Item.{IsItem};
ghost use Rattle.deleted_entries.specs.Tombstone.{IsTombstone};
ghost use Rattle.atom_writer.specs.Pieces.{entry_piece, tombstone_piece, item_piece};

use crate::doc::FeedName;
use crate::entry::push_inner;
use crate::out::{Count, Out, push_id, push_stamp};
use atom_values::{Entry, NoMemory};
use deleted_entries::{Item, Tombstone};

/// Adds the piece of a tombstone (RFC 6721 section 3).
fn push_tombstone<W: Out>(
    out: &mut W,
    name: &FeedName,
    tombstone: &Tombstone,
) -> Result<(), NoMemory>
    ensures added { OnOk result (W.adds out.old out.new (tombstone_piece name.now tombstone.now)) }
    ensures failed { OnErr result W.can_fail }
    ensures rules { OnOk result (IsTombstone tombstone.now) }
{
    out.push(b"<at:deleted-entry ref=\"")?;
    push_id(out, &name.id, tombstone.number)?;
    out.push(b"\" when=\"")?;
    push_stamp(out, tombstone.when)?;
    out.push(b"\"/>\n")?;
    Ok(())
}

/// Adds the piece of an entry.
fn push_entry<W: Out>(out: &mut W, name: &FeedName, entry: &Entry) -> Result<(), NoMemory>
    ensures added { OnOk result (W.adds out.old out.new (entry_piece name.now entry.now)) }
    ensures failed { OnErr result W.can_fail }
    ensures base { OnOk result (IsBase name.now.base) }
    ensures rules { OnOk result (IsEntry entry.now) }
{
    out.push(b"<entry>")?;
    push_inner(out, name, entry)?;
    out.push(b"</entry>\n")?;
    Ok(())
}

/// Adds the piece of an item.
pub fn push_item<W: Out>(out: &mut W, name: &FeedName, item: &Item) -> Result<(), NoMemory>
    ensures added { OnOk result (W.adds out.old out.new (item_piece name.now item.now)) }
    ensures failed { OnErr result W.can_fail }
    ensures rules { OnOk result (IsItem item.now) }
{
    match item {
        Item::Kept(entry) => push_entry(out, name, entry),
        Item::Gone(tombstone) => push_tombstone(out, name, tombstone),
    }
}

/// The length of the entry's piece of a feed document, in bytes. Takes no memory.
pub fn entry_len(name: &FeedName, entry: &Entry) -> u64
    ensures length { result ≡ length (entry_piece name.now entry.now) }
    // The rules that the types of the entry keep.
    ensures rules { IsEntry entry.now }
{
    let mut count = Count { bytes: 0 };
    // A count takes no memory, so this can't fail.
    let _ = push_entry(&mut count, name, entry);
    count.bytes
}
