use crate::copies::{Copies, copy_three};
use crate::memory::NoMemory;
use crate::text::AtomText;
use std::alloc::Global;

/// An author or a contributor, a person construct (RFC 4287 section 3.2). Keeps the texts of its elements.
#[derive(Debug, Drop, PartialEq, Eq)]
pub struct Person {
    pub name: AtomText,
    pub uri: Option<AtomText>,
    pub email: Option<AtomText>,
}

impl Copies for Person {
    ghost use Rattle.atom_values.specs.Person.{IsPerson};

    ghost rules = { IsPerson };

    fn copy(&self, alloc: Global) -> Result<Person, NoMemory> {
        let (name, uri, email) = copy_three(&self.name, &self.uri, &self.email, alloc)?;
        Ok(Person { name, uri, email })
    }
}
