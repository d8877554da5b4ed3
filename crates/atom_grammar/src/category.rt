ghost use Rattle.atom_values.specs.Listed.{Listed};
ghost use Rattle.atom_values.specs.declared.category.Category.{Category};
ghost use Rattle.atom_grammar.specs.Items.{category, categories};
ghost use Rattle.atom_grammar.specs.Parts.{Reads, ReadsAs};

use crate::part_fault::PartFault;
use crate::reader::Reader;
use atom_values::{Category, MAX_CATEGORIES, Many};
use std::alloc::Global;

impl Reader<'_> {
    /// Reads a category of an entry (RFC 4287 section 4.2.2).
    fn category(&mut self, alloc: Global) -> Result<Category, PartFault>
        ensures { Reads category self.old.rest.now result self.new.rest.now }
    {
        self.literal(b"<category")?;
        let term = self.attribute(alloc, b" term=\"")?;
        let scheme = self.optional_attribute(alloc, b" scheme=\"")?;
        let label = self.optional_attribute(alloc, b" label=\"")?;
        self.literal(b"/>")?;
        Ok(Category {
            term,
            scheme,
            label,
        })
    }

    /// Reads the categories that are next. More than the list holds are a mismatch.
    pub(crate) fn categories(
        &mut self,
        alloc: Global,
    ) -> Result<Many<Category, MAX_CATEGORIES>, PartFault>
        ensures { ReadsAs (λ (m : Listed Category). m.items) categories
            self.old.rest.now result self.new.rest.now }
    {
        let mut categories = Many::new(alloc);
        while self.at(b"<category") {
            categories.push(self.category(alloc)?)?;
        }
        Ok(categories)
    }
}
