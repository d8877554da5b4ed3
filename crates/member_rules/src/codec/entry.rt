ghost use Rattle.std.specs.Prelude.{◌≡◌, ◌||◌, is_some, OnOk, OnErr};
ghost use Rattle.atom_values.specs.Entry.{IsEntry, IsWhole};
ghost use Rattle.atom_values.specs.Link.{has_alternate, has_edit};
ghost use Rattle.atom_values.specs.Listed.{Listed};
ghost use Rattle.atom_values.specs.declared.link.Link.{Link};
ghost use Rattle.atom_writer.specs.Pieces.{joined};
ghost use Rattle.member_rules.specs.Coding.{entry_fields};
ghost use Rattle.member_rules.specs.EntryFields as parts;
ghost use Rattle.member_rules.specs.EntryFields.{contents, dates_value, entries, entry_of, front_value, linked, lists_value, persons_value, texts_value};
ghost use Rattle.member_rules.specs.Fields.{Reads, ReadsAs, counted};
ghost use Rattle.member_rules.specs.FieldLists.{ReadsAll};

use crate::codec::bytes::push_number;
use crate::codec::coded::Coded;
use crate::codec::entry_fields::{Dates, Front, Lists, Persons, Texts};
use crate::codec::fault::FieldFault;
use crate::codec::lists::{push_list, read_list};
use crate::codec::unread::Unread;
use atom_values::{Entry, Link, MAX_LINKS, Many, NoMemory, Text, names_edit, shows_alternate};
use atom_writer::Out;
use std::alloc::Global;

/// Adds the fields of the entry.
pub(crate) fn push_entry<W: Out>(out: &mut W, entry: &Entry) -> Result<(), NoMemory>
    ensures added { OnOk result (W.adds out.old out.new (joined (entry_fields entry.now))) }
    ensures failed { OnErr result W.can_fail }
    ensures rules { OnOk result (IsEntry entry.now) }
{
    push_number(out, entry.number)?;
    entry.edited.push(out)?;
    entry.updated.push(out)?;
    entry.title.push(out)?;
    entry.published.push(out)?;
    push_list(out, entry.authors.as_slice())?;
    push_list(out, entry.contributors.as_slice())?;
    push_list(out, entry.links.as_slice())?;
    push_list(out, entry.categories.as_slice())?;
    entry.rights.push(out)?;
    entry.summary.push(out)?;
    entry.content.push(out)?;
    Ok(())
}

/// Reads a member's number, which is at least 1.
pub(crate) fn read_number(unread: &mut Unread) -> Result<u32, FieldFault>
    ensures { Reads counted unread.old.rest.now result unread.new.rest.now }
{
    let mut left = *unread;
    let number = left.number()?;
    if number == 0 {
        return Err(FieldFault::Mismatch);
    }
    *unread = left;
    Ok(number)
}

/// Reads the links, none of which has the relation `edit`.
fn read_links(alloc: Global, unread: &mut Unread) -> Result<Many<Link, MAX_LINKS>, FieldFault>
    ensures { ReadsAs (λ (m : Listed Link). m.items) linked unread.old.rest.now result unread.new.rest.now }
{
    let mut left = *unread;
    let links = read_list(alloc, &mut left)?;
    if names_edit(links.as_slice()) {
        return Err(FieldFault::Mismatch);
    }
    *unread = left;
    Ok(links)
}

/// Reads the content, which may be missing if there is a link of the relation `alternate`.
fn read_content(
    alloc: Global,
    unread: &mut Unread,
    links: &[Link],
) -> Result<Option<Text>, FieldFault>
    ensures { Reads (contents links.now) unread.old.rest.now result unread.new.rest.now }
{
    let mut left = *unread;
    let content = Option::read(alloc, &mut left)?;
    if !is_shown(&content, links) {
        return Err(FieldFault::Mismatch);
    }
    *unread = left;
    Ok(content)
}

/// Reads the first three fields of an entry.
fn read_dates(alloc: Global, unread: &mut Unread) -> Result<Dates, FieldFault>
    ensures { ReadsAll dates_value parts.dates unread.old.rest.now result unread.new.rest.now }
{
    let number = read_number(unread)?;
    let edited = Coded::read(alloc, unread)?;
    let updated = Coded::read(alloc, unread)?;
    Ok(Dates {
        number,
        edited,
        updated,
    })
}

/// Reads the fields of an entry before its lists.
fn read_front(alloc: Global, unread: &mut Unread) -> Result<Front, FieldFault>
    ensures { ReadsAll front_value parts.front unread.old.rest.now result unread.new.rest.now }
{
    let dates = read_dates(alloc, unread)?;
    let title = Text::read(alloc, unread)?;
    let published = Option::read(alloc, unread)?;
    Ok(Front {
        dates,
        title,
        published,
    })
}

/// Reads the lists of persons of an entry.
fn read_persons(alloc: Global, unread: &mut Unread) -> Result<Persons, FieldFault>
    ensures { ReadsAll persons_value parts.persons unread.old.rest.now result unread.new.rest.now }
{
    let authors = read_list(alloc, unread)?;
    let contributors = read_list(alloc, unread)?;
    Ok(Persons {
        authors,
        contributors,
    })
}

/// Reads the lists of an entry.
fn read_lists(alloc: Global, unread: &mut Unread) -> Result<Lists, FieldFault>
    ensures { ReadsAll lists_value parts.lists unread.old.rest.now result unread.new.rest.now }
{
    let persons = read_persons(alloc, unread)?;
    let links = read_links(alloc, unread)?;
    let categories = read_list(alloc, unread)?;
    Ok(Lists {
        persons,
        links,
        categories,
    })
}

/// Reads the fields of an entry after its lists.
fn read_texts(alloc: Global, unread: &mut Unread, links: &[Link]) -> Result<Texts, FieldFault>
    ensures { ReadsAll texts_value (parts.texts links.now) unread.old.rest.now result unread.new.rest.now }
{
    let rights = Option::read(alloc, unread)?;
    let summary = Option::read(alloc, unread)?;
    let content = read_content(alloc, unread, links)?;
    Ok(Texts {
        rights,
        summary,
        content,
    })
}

/// Reads the fields of an entry.
pub(crate) fn read_entry(alloc: Global, unread: &mut Unread) -> Result<Entry, FieldFault>
    ensures { ReadsAll (λ entry. entry) entries unread.old.rest.now result unread.new.rest.now }
{
    let front = read_front(alloc, unread)?;
    let lists = read_lists(alloc, unread)?;
    let texts = read_texts(alloc, unread, lists.links.as_slice())?;
    Ok(put_together(front, lists, texts))
}

/// The entry of these fields.
fn put_together(front: Front, lists: Lists, texts: Texts) -> Entry
    requires { IsWhole front.dates.number lists.links.items texts.content }
    ensures { result ≡ entry_of (front_value front, (lists_value lists, texts_value texts)) }
{
    let Front {
        dates,
        title,
        published,
    } = front;
    let Dates {
        number,
        edited,
        updated,
    } = dates;
    let Lists {
        persons,
        links,
        categories,
    } = lists;
    let Persons {
        authors,
        contributors,
    } = persons;
    let Texts {
        rights,
        summary,
        content,
    } = texts;
    Entry {
        number,
        edited,
        title,
        updated,
        published,
        authors,
        contributors,
        links,
        categories,
        rights,
        summary,
        content,
    }
}

/// Whether there is content, or a link to another form of the entry.
fn is_shown(content: &Option<Text>, links: &[Link]) -> bool
    ensures { result ≡ (is_some content.now || has_alternate links.now) }
{
    content.is_some() || shows_alternate(links)
}
