ghost use Rattle.std.specs.Prelude.{◌≡◌};
ghost use Rattle.atom_values.specs.Entry.{shown_content};
ghost use Rattle.atom_values.specs.Link.{without_edit};

use crate::category::Category;
use crate::copies::{Copies, copy_both, copy_four, copy_three};
use crate::link::{Link, shows_alternate};
use crate::many::Many;
use crate::memory::NoMemory;
use crate::person::Person;
use crate::stamp::Stamp;
use crate::text::{AtomText, Text, TextKind};
use std::alloc::Global;
use std::marker::Model;

/// The greatest number of an entry's authors, and of its contributors.
pub const MAX_PERSONS: u32 = 16;

/// The greatest number of an entry's links.
pub const MAX_LINKS: u32 = 32;

/// The greatest number of an entry's categories.
pub const MAX_CATEGORIES: u32 = 64;

/// An entry as a client sends it, without the fields that the server sets (RFC 5023 section 9). `Draft::normal` makes
/// the entry of it.
#[derive(Debug, Drop)]
pub struct Draft {
    pub id: Option<AtomText>,
    pub title: Text,
    pub updated: Option<Stamp>,
    pub published: Option<Stamp>,
    pub authors: Many<Person, MAX_PERSONS>,
    pub contributors: Many<Person, MAX_PERSONS>,
    pub links: Many<Link, MAX_LINKS>,
    pub categories: Many<Category, MAX_CATEGORIES>,
    pub rights: Option<Text>,
    pub summary: Option<Text>,
    pub content: Option<Text>,
}

impl Model for Draft {
    ghost use Rattle.atom_values.specs.Entry.{DraftValue};

    ghost Value = { DraftValue };

    ghost view = { λ d. record {
      id = d.id;
      title = d.title;
      updated = d.updated;
      published = d.published;
      authors = d.authors.items;
      contributors = d.contributors.items;
      links = d.links.items;
      categories = d.categories.items;
      rights = d.rights;
      summary = d.summary;
      content = d.content;
    } };
}

/// An entry of the feed (RFC 4287 section 4.1.2). Members are counted from 1, and `edited` is the time of the last
/// change.
///
/// Keeps that no link has the relation `edit`, and that there is content or a link with the relation `alternate`.
#[derive(Debug, Drop)]
pub struct Entry {
    pub number: u32,
    pub edited: Stamp,
    pub title: Text,
    pub updated: Stamp,
    pub published: Option<Stamp>,
    pub authors: Many<Person, MAX_PERSONS>,
    pub contributors: Many<Person, MAX_PERSONS>,
    pub links: Many<Link, MAX_LINKS>,
    pub categories: Many<Category, MAX_CATEGORIES>,
    pub rights: Option<Text>,
    pub summary: Option<Text>,
    pub content: Option<Text>,
}

impl Model for Entry {
    ghost use Rattle.atom_values.specs.Entry.{EntryValue, IsWhole};

    ghost Value = { EntryValue };

    ghost view = { λ e. record {
      number = e.number;
      edited = e.edited;
      title = e.title;
      updated = e.updated;
      published = e.published;
      authors = e.authors.items;
      contributors = e.contributors.items;
      links = e.links.items;
      categories = e.categories.items;
      rights = e.rights;
      summary = e.summary;
      content = e.content;
    } };

    ghost invariant = { λ e. IsWhole e.number e.links.items e.content };
}

/// Removes the links with the relation `edit`, which the server sets itself.
fn drop_edit(links: &mut Many<Link, MAX_LINKS>)
    ensures { links.new.items ≡ without_edit links.old.items }
{
    links.retain(|link| !link.has_relation(b"edit"));
}

/// The content, or the empty text if there is neither content nor a link with the relation `alternate`.
fn shown(content: Option<Text>, links: &[Link], alloc: Global) -> Option<Text>
    ensures { result ≡ shown_content content links.now }
{
    if content.is_some() || shows_alternate(links) {
        content
    } else {
        Some(Text {
            kind: TextKind::Plain,
            value: AtomText::empty(alloc),
        })
    }
}

impl Draft {
    ghost use Rattle.std.specs.Prelude.{◌≤◌};
    ghost use Rattle.atom_values.specs.Entry.{normal, titled};

    /// A draft with this plain title and nothing else. Takes no memory.
    pub fn titled(alloc: Global, title: AtomText) -> Draft
        ensures { result ≡ titled title }
    {
        Draft {
            id: None,
            title: Text {
                kind: TextKind::Plain,
                value: title,
            },
            updated: None,
            published: None,
            authors: Many::new(alloc),
            contributors: Many::new(alloc),
            links: Many::new(alloc),
            categories: Many::new(alloc),
            rights: None,
            summary: None,
            content: None,
        }
    }

    /// The entry that the server makes of the draft, for member `number` at the time `moment`. If the draft replaces an
    /// entry, `stored` is that entry's `updated`, and the new `updated` is not before it. Takes no memory.
    pub fn normal(self, number: u32, moment: Stamp, stored: Option<Stamp>) -> Entry
        requires { 1 ≤ number }
        ensures { result ≡ normal self number moment stored }
    {
        let Draft {
            id: _,
            title,
            updated,
            published,
            authors,
            contributors,
            mut links,
            categories,
            rights,
            summary,
            content,
        } = self;
        let asked = updated.unwrap_or(moment);
        drop_edit(&mut links);
        let content = shown(content, links.as_slice(), title.value.allocator());
        Entry {
            number,
            edited: moment,
            title,
            updated: asked.max(stored.unwrap_or(asked)),
            published,
            authors,
            contributors,
            links,
            categories,
            rights,
            summary,
            content,
        }
    }
}

impl Copies for Draft {
    ghost use Rattle.atom_values.specs.Entry.{IsDraft};

    ghost rules = { IsDraft };

    fn copy(&self, alloc: Global) -> Result<Draft, NoMemory> {
        let (updated, published) = copy_both(&self.updated, &self.published, alloc)?;
        let (id, title) = copy_both(&self.id, &self.title, alloc)?;
        let (authors, contributors, links, categories) = copy_four(
            &self.authors,
            &self.contributors,
            &self.links,
            &self.categories,
            alloc,
        )?;
        let (rights, summary, content) = copy_three(
            &self.rights,
            &self.summary,
            &self.content,
            alloc,
        )?;
        Ok(Draft {
            id,
            title,
            updated,
            published,
            authors,
            contributors,
            links,
            categories,
            rights,
            summary,
            content,
        })
    }
}

impl Copies for Entry {
    ghost use Rattle.atom_values.specs.Entry.{IsEntry};

    ghost rules = { IsEntry };

    fn copy(&self, alloc: Global) -> Result<Entry, NoMemory> {
        let (number, edited) = copy_both(&self.number, &self.edited, alloc)?;
        let (updated, published) = copy_both(&self.updated, &self.published, alloc)?;
        let title = self.title.copy(alloc)?;
        let (authors, contributors, links, categories) = copy_four(
            &self.authors,
            &self.contributors,
            &self.links,
            &self.categories,
            alloc,
        )?;
        let (rights, summary, content) = copy_three(
            &self.rights,
            &self.summary,
            &self.content,
            alloc,
        )?;
        Ok(Entry {
            number,
            edited,
            title,
            updated,
            published,
            authors,
            contributors,
            links,
            categories,
            rights,
            summary,
            content,
        })
    }
}
