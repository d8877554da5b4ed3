ghost use Rattle.std.specs.Prelude.{◌≡◌, ◌<◌, ◌≤◌, ◌^◌, ◌++◌, OnOk, OnErr, IfSome};
ghost use Rattle.atom_values.specs.Category.{IsCategory};
ghost use Rattle.atom_values.specs.Entry.{IsEntry, IsText, IsWhole, person_limit, link_limit, category_limit};
ghost use Rattle.atom_values.specs.Link.{IsLink};
ghost use Rattle.atom_values.specs.Listed.{IsListOf};
ghost use Rattle.atom_values.specs.Person.{IsPerson};
ghost use Rattle.atom_values.specs.Stamp.{IsStamp};
ghost use Rattle.chain_links.specs.Base.{IsBase};
ghost use Rattle.atom_writer.specs.Entries.{edit_link, published_text, front_text, back_text, inner_text};

use crate::category::push_categories;
use crate::construct::{push_construct, push_optional_construct};
use crate::doc::FeedName;
use crate::link::push_links;
use crate::out::{Out, push_id, push_stamp};
use crate::person::push_persons;
use atom_values::{Entry, NoMemory, Stamp};
use chain_links::Address;

/// Adds the link to the member's own address (RFC 5023 section 11.1).
fn push_edit_link<W: Out>(out: &mut W, name: &FeedName, number: u32) -> Result<(), NoMemory>
    requires { 1 ≤ number }
    ensures added { OnOk result (W.adds out.old out.new (edit_link name.now number)) }
    ensures failed { OnErr result W.can_fail }
    ensures base { OnOk result (IsBase name.now.base) }
{
    out.push(b"<link rel=\"edit\" href=\"")?;
    out.push_address(&name.base, Address::Member(number))?;
    out.push(b"\"/>")?;
    Ok(())
}

/// Adds when the entry was first published (RFC 4287 section 4.2.9), if that is known.
#[tactic(auto, unfolding(crate::specs::Entries::published_text))]
fn push_published<W: Out>(out: &mut W, published: Option<Stamp>) -> Result<(), NoMemory>
    ensures added { OnOk result (W.adds out.old out.new (published_text published)) }
    ensures failed { OnErr result W.can_fail }
    ensures rules { OnOk result (IfSome published IsStamp) }
{
    let Some(moment) = published else {
        return Ok(());
    };
    out.push(b"<published>")?;
    push_stamp(out, moment)?;
    out.push(b"</published>")?;
    Ok(())
}

/// Adds an entry's text before its authors.
pub fn push_front<W: Out>(out: &mut W, name: &FeedName, entry: &Entry) -> Result<(), NoMemory>
    ensures added { OnOk result (W.adds out.old out.new (front_text name.now entry.now)) }
    ensures failed { OnErr result W.can_fail }

    ensures whole { OnOk result (IsWhole entry.now.number entry.now.links entry.now.content) }
    ensures number { OnOk result (entry.now.number < 2 ^ 32) }
    ensures title { OnOk result (IsText entry.now.title) }
    ensures updated { OnOk result (IsStamp entry.now.updated) }
    ensures published { OnOk result (IfSome entry.now.published IsStamp) }
    ensures edited { OnOk result (IsStamp entry.now.edited) }
{
    out.push(b"<id>")?;
    push_id(out, &name.id, entry.number)?;
    out.push(b"</id>")?;
    push_construct(out, b"title", &entry.title)?;
    out.push(b"<updated>")?;
    push_stamp(out, entry.updated)?;
    out.push(b"</updated>")?;
    push_published(out, entry.published)?;
    out.push(b"<app:edited>")?;
    push_stamp(out, entry.edited)?;
    out.push(b"</app:edited>")?;
    Ok(())
}

/// Adds an entry's text after its authors.
pub fn push_back<W: Out>(out: &mut W, name: &FeedName, entry: &Entry) -> Result<(), NoMemory>
    ensures added { OnOk result (W.adds out.old out.new (back_text name.now entry.now)) }
    ensures failed { OnErr result W.can_fail }
    ensures base { OnOk result (IsBase name.now.base) }

    ensures contributors { OnOk result (IsListOf person_limit IsPerson entry.now.contributors) }
    ensures links { OnOk result (IsListOf link_limit IsLink entry.now.links) }
    ensures categories { OnOk result (IsListOf category_limit IsCategory entry.now.categories) }
    ensures rights { OnOk result (IfSome entry.now.rights IsText) }
    ensures summary { OnOk result (IfSome entry.now.summary IsText) }
    ensures content { OnOk result (IfSome entry.now.content IsText) }
{
    push_persons(out, b"contributor", entry.contributors.as_slice())?;
    push_edit_link(out, name, entry.number)?;
    push_links(out, entry.links.as_slice())?;
    push_categories(out, entry.categories.as_slice())?;
    push_optional_construct(out, b"rights", &entry.rights)?;
    push_optional_construct(out, b"summary", &entry.summary)?;
    push_optional_construct(out, b"content", &entry.content)?;
    Ok(())
}

/// Adds the text between an entry's tags.
pub fn push_inner<W: Out>(out: &mut W, name: &FeedName, entry: &Entry) -> Result<(), NoMemory>
    ensures added { OnOk result (W.adds out.old out.new (inner_text name.now entry.now)) }
    ensures failed { OnErr result W.can_fail }
    ensures base { OnOk result (IsBase name.now.base) }
    ensures rules { OnOk result (IsEntry entry.now) }
{
    push_front(out, name, entry)?;
    push_persons(out, b"author", entry.authors.as_slice())?;
    push_back(out, name, entry)?;
    Ok(())
}
