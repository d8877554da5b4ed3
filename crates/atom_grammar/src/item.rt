ghost use Rattle.atom_grammar.specs.Items.{tombstone, item};
ghost use Rattle.atom_grammar.specs.Parts.{Reads};

use crate::part_fault::PartFault;
use crate::reader::Reader;
use atom_writer::FeedName;
use deleted_entries::{Item, Tombstone};
use std::alloc::Global;

impl Reader<'_> {
    /// Reads the piece of a tombstone (RFC 6721 section 3).
    fn tombstone(&mut self, name: &FeedName) -> Result<Tombstone, PartFault>
        ensures { Reads (tombstone name.now) self.old.rest.now result self.new.rest.now }
    {
        self.literal(b"<at:deleted-entry ref=\"")?;
        let number = self.member(&name.id)?;
        self.literal(b"\" when=\"")?;
        let when = self.moment()?;
        self.literal(b"\"/>\n")?;
        Ok(Tombstone { number, when })
    }

    /// Reads the piece of an item.
    pub(crate) fn item(&mut self, alloc: Global, name: &FeedName) -> Result<Item, PartFault>
        ensures { Reads (item name.now) self.old.rest.now result self.new.rest.now }
    {
        if self.at(b"<entry>") {
            Ok(Item::Kept(self.entry(alloc, name)?))
        } else {
            Ok(Item::Gone(self.tombstone(name)?))
        }
    }
}
