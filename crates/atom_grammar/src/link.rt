ghost use Rattle.std.specs.Prelude.{◌≡◌, codes, IfOk};
ghost use Rattle.atom_values.specs.Listed.{Listed};
ghost use Rattle.atom_values.specs.declared.link.Link.{Link};
ghost use Rattle.atom_grammar.specs.Items.{relation, link, links};
ghost use Rattle.atom_grammar.specs.Parts.{Reads, ReadsAs};

use crate::part_fault::PartFault;
use crate::reader::Reader;
use atom_values::{AtomText, Link, MAX_LINKS, Many, NoMemory};
use std::alloc::Global;

/// The relation of a link that states none (RFC 4287 section 4.2.7.2).
const ALTERNATE: &[u8] = b"alternate";

impl Reader<'_> {
    /// Reads the relation of a link. `alternate` is never written.
    fn relation(&mut self, alloc: Global) -> Result<AtomText, PartFault>
        ensures { Reads relation self.old.rest.now result self.new.rest.now }
    {
        let Some(relation) = self.optional_attribute(alloc, b" rel=\"")? else {
            return Ok(alternate(alloc)?);
        };
        if relation.bytes() == ALTERNATE {
            return Err(PartFault::Mismatch);
        }
        Ok(relation)
    }

    /// Reads a link of an entry (RFC 4287 section 4.2.7).
    fn link(&mut self, alloc: Global) -> Result<Link, PartFault>
        ensures { Reads link self.old.rest.now result self.new.rest.now }
    {
        self.literal(b"<link")?;
        let rel = self.relation(alloc)?;
        let href = self.attribute(alloc, b" href=\"")?;
        let media = self.optional_attribute(alloc, b" type=\"")?;
        let hreflang = self.optional_attribute(alloc, b" hreflang=\"")?;
        let title = self.optional_attribute(alloc, b" title=\"")?;
        let length = self.optional_attribute(alloc, b" length=\"")?;
        self.literal(b"/>")?;
        Ok(Link {
            href,
            rel,
            media,
            hreflang,
            title,
            length,
        })
    }

    /// Reads the links that are next. More than the list holds are a mismatch.
    pub(crate) fn links(&mut self, alloc: Global) -> Result<Many<Link, MAX_LINKS>, PartFault>
        ensures { ReadsAs (λ (m : Listed Link). m.items) links self.old.rest.now result self.new.rest.now }
    {
        let mut links = Many::new(alloc);
        while self.at(b"<link") {
            links.push(self.link(alloc)?)?;
        }
        Ok(links)
    }
}

/// The relation of a link that states none. The only error is out of memory.
fn alternate(alloc: Global) -> Result<AtomText, NoMemory>
    ensures { IfOk result (λ text. text ≡ codes "alternate") }
{
    match AtomText::of(alloc, ALTERNATE) {
        Ok(text) => Ok(text),
        Err(_) => Err(NoMemory),
    }
}
