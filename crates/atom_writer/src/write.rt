ghost use Rattle.std.specs.Prelude.{◌≡◌, ◌++◌, All, length, map, OnOk, OnErr, IfOk};
ghost use Rattle.deleted_entries.specs.Item.{IsItem};
ghost use Rattle.atom_writer.specs.Doc.{IsDoc};
ghost use Rattle.atom_writer.specs.Pieces.{item_piece, joined, text};

use crate::doc::{Doc, FeedName};
use crate::item::push_item;
use crate::name::push_name;
use crate::out::{Count, Out};
use crate::place::push_place;
use atom_values::NoMemory;
use deleted_entries::Item;
use std::alloc::Global;

/// Adds the pieces of the items, in order.
fn push_items<W: Out>(out: &mut W, name: &FeedName, items: &[Item]) -> Result<(), NoMemory>
    ensures added { OnOk result (W.adds out.old out.new (joined (map (item_piece name.now) items.now))) }
    ensures failed { OnErr result W.can_fail }
    ensures rules { OnOk result (All IsItem items.now) }
{
    for item in items {
        push_item(out, name, item)?;
    }
    Ok(())
}

/// Adds the text of the document.
fn push_doc<W: Out>(out: &mut W, doc: &Doc) -> Result<(), NoMemory>
    ensures added { OnOk result (W.adds out.old out.new (text doc.now)) }
    ensures failed { OnErr result W.can_fail }
    ensures rules { OnOk result (IsDoc doc.now) }
{
    push_name(out, &doc.name, doc.updated)?;
    push_place(out, &doc.name, doc.kind, doc.span, doc.prev)?;
    push_items(out, &doc.name, doc.items.as_slice())?;
    out.push(b"</feed>\n")?;
    Ok(())
}

/// Returns the canonical text of the document. The memory is allocated at once.
///
/// The only error is out of memory.
pub fn write_doc(alloc: Global, doc: &Doc) -> Result<Vec<u8>, NoMemory>
    ensures { IfOk result (λ written. written.items ≡ text doc.now) }
{
    let mut out = Vec::with_capacity(alloc, doc_len(doc) as usize)?;
    push_doc(&mut out, doc)?;
    Ok(out)
}

/// Returns the length of the document's canonical text, in bytes. Takes no memory.
pub fn doc_len(doc: &Doc) -> u64
    ensures length { result ≡ length (text doc.now) }
    // The rules that the types of the document keep.
    ensures rules { IsDoc doc.now }
{
    let mut count = Count { bytes: 0 };
    // A count takes no memory, so this can't fail.
    let _ = push_doc(&mut count, doc);
    count.bytes
}
