ghost use Rattle.std.specs.Prelude.{◌≡◌, []};
ghost use Rattle.xml_tokens.specs.Tree.{Element as TreeElement, Content as Inner};
ghost use Rattle.xml_tokens.specs.Tree.Content.{nothing};
ghost use Rattle.feed_reader.specs.FeedReading.{IsEntryMade, IsEntrySoFar};

use crate::children::Parts;
use crate::fault::FeedWhy;
use crate::text::{Refusal, Required, date, identifier, refusal, title};
use crate::values::ForeignEntry;
use atom_values::{AtomText, Stamp};
use std::alloc::Global;
use xml_tokens::{Element, Elements, TokenFault};

/// The parts of an entry that are read so far. After the first refusal only the required children are noted.
#[derive(Drop)]
pub(crate) struct EntryParts {
    alloc: Global,
    required: Required,
    /// The refusal of the first child that has one.
    refused: Option<Refusal>,
    id: Option<AtomText>,
    title: Option<AtomText>,
    updated: Option<Stamp>,
}

impl EntryParts {
    /// The parts of an entry of which nothing is read.
    pub(crate) fn new(alloc: Global) -> EntryParts
        ensures { IsEntrySoFar nothing result }
    {
        EntryParts {
            alloc,
            required: Required::none(),
            refused: None,
            id: None,
            title: None,
            updated: None,
        }
    }

    /// The entry at offset `at` with these parts, or its refusal. `full` says that the list of entries has no room.
    pub(crate) fn entry(self, at: usize, full: bool) -> Result<ForeignEntry, Refusal>
        ensures { (e : TreeElement) (inner : Inner) → e.place ≡ at → IsEntrySoFar inner self
            → IsEntryMade e inner full result }
    {
        let EntryParts {
            alloc,
            required,
            refused,
            id,
            title,
            updated,
        } = self;
        if !required.all() {
            return Err((at, FeedWhy::Missing));
        }
        if full {
            return Err((at, FeedWhy::TooMany));
        }
        if let Some(refusal) = refused {
            return Err(refusal);
        }
        // Both were read: neither is missing nor refused.
        let (Some(id), Some(updated)) = (id, updated) else {
            return Err((at, FeedWhy::Missing));
        };
        Ok(ForeignEntry {
            id,
            title: title.unwrap_or(AtomText::empty(alloc)),
            updated,
        })
    }
}

impl Parts for EntryParts {
    ghost Read = { IsEntrySoFar };

    ghost fixed = { λ _. [] };

    fn child<'a>(
        &mut self,
        elements: &mut Elements<'a>,
        child: &Element<'a>,
    ) -> Result<(), TokenFault> {
        self.required.note(child);
        if self.refused.is_some() {
            return elements.skip();
        }
        let why = if child.is_atom(b"id") {
            identifier(self.alloc, elements, &mut self.id)?
        } else if child.is_atom(b"updated") {
            date(elements, &mut self.updated)?
        } else if child.is_atom(b"title") {
            title(self.alloc, elements, &mut self.title)?
        } else {
            elements.skip()?;
            None
        };
        self.refused = refusal(child, why);
        Ok(())
    }
}
