ghost use Rattle.std.specs.Prelude.{◌≡◌};
ghost use Rattle.atom_values.specs.Link.{has_alternate, has_edit, has_relation};

use crate::copies::{Copies, copy_three};
use crate::memory::NoMemory;
use crate::text::AtomText;
use std::alloc::Global;

/// A link of an entry (RFC 4287 section 4.2.7). Keeps the values of the element's attributes: `media` is `type`, and
/// `rel` is `alternate` if the attribute is absent.
#[derive(Debug, Drop, PartialEq, Eq)]
pub struct Link {
    pub href: AtomText,
    pub rel: AtomText,
    pub media: Option<AtomText>,
    pub hreflang: Option<AtomText>,
    pub title: Option<AtomText>,
    pub length: Option<AtomText>,
}

impl Link {
    /// Whether the link has this relation, byte for byte.
    pub fn has_relation(&self, relation: &[u8]) -> bool
        ensures { result ≡ has_relation relation.now self.now }
    {
        self.rel.bytes() == relation
    }
}

/// Whether one of the links has the relation `edit`, which the server sets itself (RFC 5023 section 11.1).
pub fn names_edit(links: &[Link]) -> bool
    ensures { result ≡ has_edit links.now }
{
    links.iter().any(|link| link.has_relation(b"edit"))
}

/// Whether one of the links has the relation `alternate`, so that an entry may do without content (RFC 4287 section
/// 4.1.2).
pub fn shows_alternate(links: &[Link]) -> bool
    ensures { result ≡ has_alternate links.now }
{
    links.iter().any(|link| link.has_relation(b"alternate"))
}

impl Copies for Link {
    ghost use Rattle.atom_values.specs.Link.{IsLink};

    ghost rules = { IsLink };

    fn copy(&self, alloc: Global) -> Result<Link, NoMemory> {
        let (href, rel, media) = copy_three(&self.href, &self.rel, &self.media, alloc)?;
        let (hreflang, title, length) = copy_three(
            &self.hreflang,
            &self.title,
            &self.length,
            alloc,
        )?;
        Ok(Link {
            href,
            rel,
            media,
            hreflang,
            title,
            length,
        })
    }
}
