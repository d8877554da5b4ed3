ghost use Rattle.std.specs.Prelude.{◌≤◌, ◌↔◌, IsTrue, OnOk, OnErr};
ghost use Rattle.atom_writer.specs.Pieced.{text_of};
ghost use Rattle.member_rules.specs.Coding.{heads};
ghost use Rattle.member_rules.specs.FieldLists.{ReadsAll, ReadsWhole};
ghost use Rattle.member_rules.specs.Fields.{Reads};
ghost use Rattle.member_rules.specs.Head.{IsHead};
ghost use Rattle.member_rules.specs.HeadFields.{base, capacity, created, feed_id, format, name_parts, name_value, settings, settings_value, title, titles, titles_value, window};

use crate::codec::bytes::{push_bytes, push_number, push_size};
use crate::codec::coded::Coded;
use crate::codec::fault::FieldFault;
use crate::codec::head_fields::{Settings, Titles};
use crate::codec::unread::Unread;
use crate::head::{CAPACITY_FLOOR, CAPACITY_LIMIT, Head, NEWEST_FORMAT};
use crate::setting::{ShortText, WindowSize};
use atom_values::{AtomText, NoMemory, Stamp};
use atom_writer::{FeedName, Out};
use chain_links::Base;
use deleted_entries::FeedId;
use std::alloc::Global;

/// Adds the fields of the head.
pub(crate) fn push_head<W: Out>(out: &mut W, head: &Head) -> Result<(), NoMemory>
    ensures added { OnOk result (W.adds out.old out.new (text_of heads head.now)) }
    ensures failed { OnErr result W.can_fail }
    ensures rules { OnOk result (IsHead head.now) }
{
    out.push(&[head.format])?;
    push_bytes(out, head.name.base.text())?;
    out.push(&head.name.id.bytes())?;
    head.name.title.push(out)?;
    head.name.author.push(out)?;
    push_number(out, head.window)?;
    push_size(out, head.capacity)?;
    head.created.push(out)?;
    Ok(())
}

/// Reads the fields of a head, which are all the bytes.
pub(crate) fn read_whole(alloc: Global, unread: &mut Unread) -> Result<Head, FieldFault>
    ensures { ReadsWhole heads unread.old.rest.now result unread.new.rest.now }
{
    let head = read_head(alloc, unread)?;
    unread
        .rest
        .is_empty()
        .then_some(head)
        .ok_or(FieldFault::Mismatch)
}

/// Reads the fields of a head.
fn read_head(alloc: Global, unread: &mut Unread) -> Result<Head, FieldFault>
    ensures { ReadsAll (λ head. head) heads unread.old.rest.now result unread.new.rest.now }
{
    let format = read_format(unread)?;
    let name = read_name(alloc, unread)?;
    let settings = read_settings(alloc, unread)?;
    Ok(Head {
        format,
        name,
        window: settings.window.get(),
        capacity: settings.capacity,
        created: settings.created,
    })
}

/// Reads the format, which is the first byte.
fn read_format(unread: &mut Unread) -> Result<u8, FieldFault>
    ensures { Reads format unread.old.rest.now result unread.new.rest.now }
{
    let mut left = *unread;
    let format = left.byte()?;
    if format < 1 || format > NEWEST_FORMAT {
        return Err(FieldFault::Mismatch);
    }
    *unread = left;
    Ok(format)
}

/// Reads the name of the feed.
fn read_name(alloc: Global, unread: &mut Unread) -> Result<FeedName, FieldFault>
    ensures { ReadsAll name_value name_parts unread.old.rest.now result unread.new.rest.now }
{
    let base = read_base(alloc, unread)?;
    let id = read_id(unread)?;
    let titles = read_titles(alloc, unread)?;
    Ok(FeedName {
        base,
        id,
        title: titles.title.into_text(),
        author: titles.author.into_text(),
    })
}

/// Reads the two texts of a feed's name.
fn read_titles(alloc: Global, unread: &mut Unread) -> Result<Titles, FieldFault>
    ensures { ReadsAll titles_value titles unread.old.rest.now result unread.new.rest.now }
{
    let title = read_title(alloc, unread)?;
    let author = read_title(alloc, unread)?;
    Ok(Titles { title, author })
}

/// Reads the fields of a head after the feed's name.
fn read_settings(alloc: Global, unread: &mut Unread) -> Result<Settings, FieldFault>
    ensures { ReadsAll settings_value settings unread.old.rest.now result unread.new.rest.now }
{
    let window = read_window(unread)?;
    let capacity = read_capacity(unread)?;
    let created = read_created(alloc, unread)?;
    Ok(Settings {
        window,
        capacity,
        created,
    })
}

/// Reads a base address.
fn read_base(alloc: Global, unread: &mut Unread) -> Result<Base, FieldFault>
    ensures { Reads base unread.old.rest.now result unread.new.rest.now }
{
    let mut left = *unread;
    let base = Base::parse(alloc, left.text()?)?;
    *unread = left;
    Ok(base)
}

/// Reads a feed's identifier.
fn read_id(unread: &mut Unread) -> Result<FeedId, FieldFault>
    ensures { Reads feed_id unread.old.rest.now result unread.new.rest.now }
{
    let Some((bytes, rest)) = unread.rest.split_first_chunk::<16>() else {
        return Err(FieldFault::Mismatch);
    };
    let Some(id) = FeedId::of(*bytes) else {
        return Err(FieldFault::Mismatch);
    };
    unread.rest = rest;
    Ok(id)
}

/// Reads a text of at most `TITLE_LIMIT` bytes.
pub(crate) fn read_title(alloc: Global, unread: &mut Unread) -> Result<ShortText, FieldFault>
    ensures { Reads title unread.old.rest.now result unread.new.rest.now }
{
    let mut left = *unread;
    let text = AtomText::read(alloc, &mut left)?;
    let Some(title) = ShortText::of(text) else {
        return Err(FieldFault::Mismatch);
    };
    *unread = left;
    Ok(title)
}

/// Whether an area may be limited to this many bytes.
fn is_capacity(capacity: u64) -> bool
    ensures { IsTrue result ↔ ((CAPACITY_FLOOR ≤ capacity) × (capacity ≤ CAPACITY_LIMIT)) }
{
    capacity >= CAPACITY_FLOOR && capacity <= CAPACITY_LIMIT
}

/// Reads the number of operations of a window.
pub(crate) fn read_window(unread: &mut Unread) -> Result<WindowSize, FieldFault>
    ensures { Reads window unread.old.rest.now result unread.new.rest.now }
{
    let mut left = *unread;
    let Some(window) = WindowSize::new(left.number()?) else {
        return Err(FieldFault::Mismatch);
    };
    *unread = left;
    Ok(window)
}

/// Reads the number of bytes that an area may have.
fn read_capacity(unread: &mut Unread) -> Result<u64, FieldFault>
    ensures { Reads capacity unread.old.rest.now result unread.new.rest.now }
{
    let mut left = *unread;
    let capacity = left.size()?;
    if !is_capacity(capacity) {
        return Err(FieldFault::Mismatch);
    }
    *unread = left;
    Ok(capacity)
}

/// Reads when the feed was made, which isn't before 1970.
fn read_created(alloc: Global, unread: &mut Unread) -> Result<Stamp, FieldFault>
    ensures { Reads created unread.old.rest.now result unread.new.rest.now }
{
    let mut left = *unread;
    let created = Stamp::read(alloc, &mut left)?;
    if created.millis() < 0 {
        return Err(FieldFault::Mismatch);
    }
    *unread = left;
    Ok(created)
}
