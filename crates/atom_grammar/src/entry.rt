ghost use Rattle.std.specs.Prelude.{◌≡◌, ◌==◌, not, ◌&&◌, ◌||◌, is_some};
ghost use Rattle.atom_values.specs.Link.{has_edit, has_alternate};
ghost use Rattle.atom_values.specs.Entry.{IsWhole};
ghost use Rattle.atom_grammar.specs.EntryParts.{dates_value, front_value, texts_value, details_value, back_value, entry_of};
ghost use Rattle.atom_grammar.specs.Items.{identifier, dates, front, editing, texts, details, back, entry};
ghost use Rattle.atom_grammar.specs.Parts.{Reads, ReadsAs};

use crate::entry_parts::{Back, Dates, Details, Front, Texts};
use crate::part_fault::PartFault;
use crate::reader::Reader;
use atom_values::{Entry, MAX_PERSONS, Many, Person, names_edit, shows_alternate};
use atom_writer::FeedName;
use chain_links::Address;
use std::alloc::Global;

// Each method reads at most three parts one after another, so that one more part is one more step of one method.
impl Reader<'_> {
    /// Reads the member's identifier (RFC 4287 section 4.2.6), which is its number.
    fn identifier(&mut self, name: &FeedName) -> Result<u32, PartFault>
        ensures { Reads (identifier name.now) self.old.rest.now result self.new.rest.now }
    {
        self.literal(b"<id>")?;
        let number = self.member(&name.id)?;
        self.literal(b"</id>")?;
        Ok(number)
    }

    /// Reads the dates of an entry (RFC 4287 sections 4.2.15 and 4.2.9, RFC 5023 section 10.2).
    fn dates(&mut self) -> Result<Dates, PartFault>
        ensures { ReadsAs dates_value dates self.old.rest.now result self.new.rest.now }
    {
        let updated = self.date(b"<updated>", b"</updated>")?;
        let published = self.optional_date(b"<published>", b"</published>")?;
        let edited = self.date(b"<app:edited>", b"</app:edited>")?;
        Ok(Dates {
            updated,
            published,
            edited,
        })
    }

    /// Reads the parts of an entry before its authors.
    fn front(&mut self, alloc: Global, name: &FeedName) -> Result<Front, PartFault>
        ensures { ReadsAs front_value (front name.now) self.old.rest.now result self.new.rest.now }
    {
        let number = self.identifier(name)?;
        let title = self.construct(alloc, b"<title", b"</title>")?;
        let dates = self.dates()?;
        Ok(Front {
            number,
            title,
            dates,
        })
    }

    /// Reads the link to a member's own address (RFC 5023 section 11.1), and returns the member's number.
    fn editing(&mut self, name: &FeedName) -> Result<u32, PartFault>
        ensures { Reads (editing name.now) self.old.rest.now result self.new.rest.now }
    {
        self.literal(b"<link rel=\"edit\" href=\"")?;
        let address = self.address(&name.base)?;
        self.literal(b"\"/>")?;
        match address {
            Address::Member(number) => Ok(number),
            _ => Err(PartFault::Mismatch),
        }
    }

    /// Reads the text constructs after an entry's categories.
    fn texts(&mut self, alloc: Global) -> Result<Texts, PartFault>
        ensures { ReadsAs texts_value texts self.old.rest.now result self.new.rest.now }
    {
        let rights = self.optional_construct(alloc, b"<rights", b"</rights>")?;
        let summary = self.optional_construct(alloc, b"<summary", b"</summary>")?;
        let content = self.optional_construct(alloc, b"<content", b"</content>")?;
        Ok(Texts {
            rights,
            summary,
            content,
        })
    }

    /// Reads the parts of an entry after its link for editing.
    fn details(&mut self, alloc: Global) -> Result<Details, PartFault>
        ensures { ReadsAs details_value details self.old.rest.now result self.new.rest.now }
    {
        let links = self.links(alloc)?;
        let categories = self.categories(alloc)?;
        let texts = self.texts(alloc)?;
        Ok(Details {
            links,
            categories,
            texts,
        })
    }

    /// Reads the parts of an entry after its authors.
    fn back(&mut self, alloc: Global, name: &FeedName) -> Result<Back, PartFault>
        ensures { ReadsAs back_value (back name.now) self.old.rest.now result self.new.rest.now }
    {
        let contributors = self.persons(alloc, b"<contributor>", b"</contributor>")?;
        let edit = self.editing(name)?;
        let details = self.details(alloc)?;
        Ok(Back {
            contributors,
            edit,
            details,
        })
    }

    /// Reads the piece of an entry. Its identifier and its link for editing name the same member.
    pub(crate) fn entry(&mut self, alloc: Global, name: &FeedName) -> Result<Entry, PartFault>
        ensures { Reads (entry name.now) self.old.rest.now result self.new.rest.now }
    {
        self.literal(b"<entry>")?;
        let front = self.front(alloc, name)?;
        let authors = self.persons(alloc, b"<author>", b"</author>")?;
        let back = self.back(alloc, name)?;
        self.literal(b"</entry>\n")?;
        if !agrees(&back, front.number) {
            return Err(PartFault::Mismatch);
        }
        Ok(put_together(front, authors, back))
    }
}

/// The entry of these parts.
fn put_together(front: Front, authors: Many<Person, MAX_PERSONS>, back: Back) -> Entry
    requires { IsWhole front.number back.details.links.items back.details.texts.content }
    ensures { result ≡ entry_of (front_value front, (authors.items, back_value back)) }
{
    let Front {
        number,
        title,
        dates,
    } = front;
    let Dates {
        updated,
        published,
        edited,
    } = dates;
    let Back {
        contributors,
        edit: _,
        details,
    } = back;
    let Details {
        links,
        categories,
        texts,
    } = details;
    let Texts {
        rights,
        summary,
        content,
    } = texts;
    Entry {
        number,
        edited,
        title,
        updated,
        published,
        authors,
        contributors,
        links,
        categories,
        rights,
        summary,
        content,
    }
}

/// Whether the parts after the authors fit an entry of this number: the link for editing names it, no other link has
/// that relation, and the entry has content or a link to another form of it.
fn agrees(back: &Back, number: u32) -> bool
    ensures { let links = back.now.details.links.items in
        result ≡ ((back.now.edit == number) && not (has_edit links)
        && (is_some back.now.details.texts.content || has_alternate links)) }
{
    let links = back.details.links.as_slice();
    back.edit == number
        && !names_edit(links)
        && (back.details.texts.content.is_some() || shows_alternate(links))
}
