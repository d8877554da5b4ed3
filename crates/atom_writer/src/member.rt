ghost use Rattle.std.specs.Prelude.{◌≡◌, [], ◌++◌, All, length, OnOk, OnErr, IfOk};
ghost use Rattle.atom_values.specs.Entry.{IsEntry};
ghost use Rattle.atom_values.specs.Escape.{escaped};
ghost use Rattle.atom_values.specs.Person.{IsPerson};
ghost use Rattle.atom_values.specs.XmlText.{IsAtomText};
ghost use Rattle.chain_links.specs.Base.{IsBase};
ghost use Rattle.atom_writer.specs.Members.{member_open, shown_authors, member_text};

use crate::doc::FeedName;
use crate::entry::{push_back, push_front};
use crate::name::{push_between, push_declaration};
use crate::out::{Count, Out};
use crate::person::push_persons;
use atom_values::{Entry, NoMemory, Person};
use std::alloc::Global;

const MEMBER_OPEN: &[u8] =
    b"<entry xmlns=\"http://www.w3.org/2005/Atom\" xmlns:app=\"http://www.w3.org/2007/app\">";

/// Adds the open tag of a member document, with the namespaces.
#[tactic(auto, unfolding(crate::specs::Members::member_open))]
fn push_member_open<W: Out>(out: &mut W) -> Result<(), NoMemory>
    ensures added { OnOk result (W.adds out.old out.new member_open) }
    ensures failed { OnErr result W.can_fail }
{
    out.push(MEMBER_OPEN)?;
    Ok(())
}

/// Adds the entry's authors, or the feed's if the entry has none (RFC 4287 section 4.1.2).
#[tactic(auto, unfolding(crate::specs::Members::shown_authors))]
fn push_shown_authors<W: Out>(
    out: &mut W,
    name: &FeedName,
    authors: &[Person],
) -> Result<(), NoMemory>
    ensures added { OnOk result (W.adds out.old out.new (shown_authors name.now authors.now)) }
    ensures failed { OnErr result W.can_fail }
    ensures rules { OnOk result (All IsPerson authors.now) }
    // The feed's author is read only if it is shown.
    ensures author { OnOk result (authors.now ≡ [] → IsAtomText name.now.author) }
{
    match authors {
        [] => push_between(out, b"<author><name>", &name.author, b"</name></author>"),
        [_, ..] => push_persons(out, b"author", authors),
    }
}

/// Adds the text of the member document.
fn push_member<W: Out>(out: &mut W, name: &FeedName, entry: &Entry) -> Result<(), NoMemory>
    ensures added { OnOk result (W.adds out.old out.new (member_text name.now entry.now)) }
    ensures failed { OnErr result W.can_fail }
    ensures base { OnOk result (IsBase name.now.base) }
    ensures rules { OnOk result (IsEntry entry.now) }
    ensures author { OnOk result (entry.now.authors ≡ [] → IsAtomText name.now.author) }
{
    push_declaration(out)?;
    push_member_open(out)?;
    push_front(out, name, entry)?;
    push_shown_authors(out, name, entry.authors.as_slice())?;
    push_back(out, name, entry)?;
    out.push(b"</entry>\n")?;
    Ok(())
}

/// Returns the member document of the entry (RFC 5023 section 9). If the entry has no author, the document shows the
/// feed's author, because an entry document must have one (RFC 4287 section 4.1.2). The memory is allocated at once.
///
/// The only error is out of memory.
pub fn write_member(alloc: Global, name: &FeedName, entry: &Entry) -> Result<Vec<u8>, NoMemory>
    ensures { IfOk result (λ written. written.items ≡ member_text name.now entry.now) }
{
    let mut out = Vec::with_capacity(alloc, member_len(name, entry) as usize)?;
    push_member(&mut out, name, entry)?;
    Ok(out)
}

/// The length of the member document, in bytes. Takes no memory.
fn member_len(name: &FeedName, entry: &Entry) -> u64
    ensures { result ≡ length (member_text name.now entry.now) }
{
    let mut count = Count { bytes: 0 };
    // A count takes no memory, so this can't fail.
    let _ = push_member(&mut count, name, entry);
    count.bytes
}
