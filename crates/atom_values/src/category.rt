use crate::copies::{Copies, copy_three};
use crate::memory::NoMemory;
use crate::text::AtomText;
use std::alloc::Global;

/// A category of an entry (RFC 4287 section 4.2.2). Keeps the values of the element's attributes.
#[derive(Debug, Drop, PartialEq, Eq)]
pub struct Category {
    pub term: AtomText,
    pub scheme: Option<AtomText>,
    pub label: Option<AtomText>,
}

impl Copies for Category {
    ghost use Rattle.atom_values.specs.Category.{IsCategory};

    ghost rules = { IsCategory };

    fn copy(&self, alloc: Global) -> Result<Category, NoMemory> {
        let (term, scheme, label) = copy_three(&self.term, &self.scheme, &self.label, alloc)?;
        Ok(Category {
            term,
            scheme,
            label,
        })
    }
}
