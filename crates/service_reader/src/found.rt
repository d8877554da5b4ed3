ghost use Rattle.std.specs.Prelude.{◌≡◌, ◌++◌, ◌∷◌, [], ℕ, List, None, OnOk, is_some};
ghost use Rattle.xml_tokens.specs.Children.{Child};
ghost use Rattle.feed_reader.specs.Feed.{target};
ghost use Rattle.service_reader.specs.Service.{takes_entries};
ghost use Rattle.service_reader.specs.ServiceReading.{AreFound, AreMade};

use crate::fault::ServiceWhy;
use crate::values::{Collection, MAX_COLLECTIONS};
use atom_values::{Bytes, Many, NoMemory};
use std::alloc::Global;

/// Why an element is refused, after the offset of its `<`.
pub(crate) type Refusal = (usize, ServiceWhy);

/// The collections that are read so far. After the first refusal none is added.
#[derive(Drop)]
pub(crate) struct Found {
    /// The refusal of the first collection that has one.
    refused: Option<Refusal>,
    collections: Many<Collection, MAX_COLLECTIONS>,
}

impl Found {
    /// No collection is read.
    pub(crate) fn new(alloc: Global) -> Found
        ensures { (address : List ℕ) → AreFound address [] result }
    {
        Found {
            refused: None,
            collections: Many::new(alloc),
        }
    }

    /// Whether a collection is refused.
    pub(crate) fn is_refused(&self) -> bool
        ensures { result ≡ is_some self.now.refused }
    {
        self.refused.is_some()
    }

    /// Adds the collection at offset `at`, or refuses it. `href` is `None` if its address can't be read.
    pub(crate) fn add(
        &mut self,
        at: usize,
        href: Option<Bytes>,
        entries: bool,
    ) -> Result<(), NoMemory>
        ensures { OnOk result ((address : List ℕ) (seen : List Child) (c : Child)
            → AreFound address seen self.old → self.old.refused ≡ None → c.element.place ≡ at
            → href ≡ target address c → entries ≡ takes_entries c
            → AreFound address (seen ++ c ∷ []) self.new) }
    {
        let Some(href) = href else {
            self.refused = Some((at, ServiceWhy::BadLink));
            return Ok(());
        };
        if self.collections.len() == MAX_COLLECTIONS as usize {
            drop(href);
            self.refused = Some((at, ServiceWhy::TooMany));
            return Ok(());
        }
        match self.collections.push(Collection { href, entries }) {
            Ok(()) => Ok(()),
            Err(_) => Err(NoMemory),
        }
    }

    /// The collections, or the refusal of the first one that has one.
    pub(crate) fn collections(self) -> Result<Many<Collection, MAX_COLLECTIONS>, Refusal>
        ensures { (address : List ℕ) (seen : List Child) → AreFound address seen self
            → AreMade address seen result }
    {
        let Found {
            refused,
            collections,
        } = self;
        match refused {
            Some(refusal) => {
                drop(collections);
                Err(refusal)
            }
            None => Ok(collections),
        }
    }
}
