ghost use Rattle.std.specs.Prelude.{IsTrue, codes};
ghost use Rattle.atom_values.specs.Listed.{Listed};
ghost use Rattle.atom_values.specs.declared.person.Person.{Person};
ghost use Rattle.atom_grammar.specs.Items.{person, persons};
ghost use Rattle.atom_grammar.specs.Parts.{Reads, ReadsAs, starts};

use crate::part_fault::PartFault;
use crate::reader::Reader;
use atom_values::{MAX_PERSONS, Many, Person};
use std::alloc::Global;

impl Reader<'_> {
    /// Reads a person construct (RFC 4287 section 3.2) between these tags.
    fn person(&mut self, alloc: Global, start: &[u8], end: &[u8]) -> Result<Person, PartFault>
        requires { IsTrue (starts (codes "</") end.now) }
        ensures { Reads (person start.now end.now) self.old.rest.now result self.new.rest.now }
    {
        self.literal(start)?;
        let name = self.element(alloc, b"<name>", b"</name>")?;
        let uri = self.optional_element(alloc, b"<uri>", b"</uri>")?;
        let email = self.optional_element(alloc, b"<email>", b"</email>")?;
        self.literal(end)?;
        Ok(Person { name, uri, email })
    }

    /// Reads the persons that are next. More than the list holds are a mismatch.
    pub(crate) fn persons(
        &mut self,
        alloc: Global,
        start: &[u8],
        end: &[u8],
    ) -> Result<Many<Person, MAX_PERSONS>, PartFault>
        requires start { IsTrue (starts (codes "<") start.now) }
        requires end { IsTrue (starts (codes "</") end.now) }
        ensures { ReadsAs (λ (m : Listed Person). m.items) (persons start.now end.now)
            self.old.rest.now result self.new.rest.now }
    {
        let mut persons = Many::new(alloc);
        while self.at(start) {
            persons.push(self.person(alloc, start, end)?)?;
        }
        Ok(persons)
    }
}
