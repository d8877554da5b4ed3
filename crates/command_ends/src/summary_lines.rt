ghost use Rattle.std.specs.Prelude.{◌≡◌, ◌++◌, OnOk, IfOk, decimal, flat_map};
ghost use Rattle.atom_values.specs.Stamp as stamp;
ghost use Rattle.command_ends.specs.Summary as lines;

use atom_values::{Entry, NoMemory, Stamp, escape_into};
use atom_writer::{Doc, Kind};
use deleted_entries::{Item, Tombstone};
use itoa::Buffer;
use std::alloc::Global;

/// The lines that say what a document is and which items it has.
pub fn summary(alloc: Global, doc: &Doc) -> Result<Vec<u8>, NoMemory>
    ensures { IfOk result (λ written. written.items ≡ lines.summary doc.now) }
{
    let mut out = Vec::new(alloc);
    push_head(&mut out, doc)?;
    push_items(&mut out, doc.items.as_slice())?;
    Ok(out)
}

/// Adds the lines of the document itself.
fn push_head(out: &mut Vec<u8>, doc: &Doc) -> Result<(), NoMemory>
    ensures { OnOk result (out.new.items ≡ out.old.items ++ lines.head_lines doc.now) }
{
    push_kind(out, doc.kind)?;
    push_feed(out, doc)?;
    push_span(out, doc)?;
    push_prev(out, doc)?;
    push_updated(out, doc)
}

fn push_kind(out: &mut Vec<u8>, kind: Kind) -> Result<(), NoMemory>
    ensures { OnOk result (out.new.items ≡ out.old.items ++ lines.kind_line kind) }
{
    match kind {
        Kind::Subscription => out.extend_from_slice(b"subscription\n")?,
        Kind::Archive(number) => push_numbered(out, b"archive ", number, b"\n")?,
    }
    Ok(())
}

fn push_feed(out: &mut Vec<u8>, doc: &Doc) -> Result<(), NoMemory>
    ensures { OnOk result (out.new.items ≡ out.old.items ++ lines.feed_line doc.now) }
{
    out.extend_from_slice(b"feed ")?;
    out.extend_from_slice(&doc.name.id.print())?;
    out.extend_from_slice(b"\n")?;
    Ok(())
}

fn push_span(out: &mut Vec<u8>, doc: &Doc) -> Result<(), NoMemory>
    ensures { OnOk result (out.new.items ≡ out.old.items ++ lines.span_line doc.now) }
{
    push_numbered(out, b"span ", doc.span.first, b" ")?;
    push_numbered(out, b"", doc.span.last, b"\n")
}

fn push_prev(out: &mut Vec<u8>, doc: &Doc) -> Result<(), NoMemory>
    ensures { OnOk result (out.new.items ≡ out.old.items ++ lines.prev_line doc.now) }
{
    push_numbered(out, b"prev ", doc.prev, b"\n")
}

fn push_updated(out: &mut Vec<u8>, doc: &Doc) -> Result<(), NoMemory>
    ensures { OnOk result (out.new.items ≡ out.old.items ++ lines.updated_line doc.now) }
{
    out.extend_from_slice(b"updated ")?;
    push_stamp(out, doc.updated)?;
    out.extend_from_slice(b"\n")?;
    Ok(())
}

/// Adds a line for each item.
fn push_items(out: &mut Vec<u8>, items: &[Item]) -> Result<(), NoMemory>
    ensures { OnOk result (out.new.items ≡ out.old.items ++ flat_map lines.item_line items.now) }
{
    for item in items {
        push_item(out, item)?;
    }
    Ok(())
}

fn push_item(out: &mut Vec<u8>, item: &Item) -> Result<(), NoMemory>
    ensures { OnOk result (out.new.items ≡ out.old.items ++ lines.item_line item.now) }
{
    match item {
        Item::Kept(entry) => push_entry(out, entry),
        Item::Gone(tombstone) => push_tombstone(out, *tombstone),
    }
}

/// Adds the line of an entry.
pub fn push_entry(out: &mut Vec<u8>, entry: &Entry) -> Result<(), NoMemory>
    ensures { OnOk result (out.new.items ≡ out.old.items ++ lines.entry_line entry.now) }
{
    push_numbered(out, b"entry ", entry.number, b" ")?;
    push_stamp(out, entry.updated)?;
    out.extend_from_slice(b" ")?;
    escape_into(out, &entry.title.value, true)?;
    out.extend_from_slice(b"\n")?;
    Ok(())
}

fn push_tombstone(out: &mut Vec<u8>, tombstone: Tombstone) -> Result<(), NoMemory>
    ensures { OnOk result (out.new.items ≡ out.old.items ++ lines.gone_line tombstone) }
{
    push_numbered(out, b"gone ", tombstone.number, b" ")?;
    push_stamp(out, tombstone.when)?;
    out.extend_from_slice(b"\n")?;
    Ok(())
}

/// Adds a number between two texts.
pub fn push_numbered(
    out: &mut Vec<u8>,
    front: &[u8],
    number: u32,
    back: &[u8],
) -> Result<(), NoMemory>
    ensures { OnOk result (out.new.items ≡ out.old.items ++ (front.now ++ decimal number ++ back.now)) }
{
    out.extend_from_slice(front)?;
    let mut buffer = Buffer::new();
    out.extend_from_slice(buffer.format(number).as_bytes())?;
    out.extend_from_slice(back)?;
    Ok(())
}

/// Adds the printed moment.
fn push_stamp(out: &mut Vec<u8>, moment: Stamp) -> Result<(), NoMemory>
    ensures { OnOk result (out.new.items ≡ out.old.items ++ stamp.printed moment) }
{
    let mut buffer = [0u8; 24];
    let length = moment.print(&mut buffer);
    out.extend_from_slice(&buffer[..length])?;
    Ok(())
}
