ghost use Rattle.std.specs.Prelude.{◌≡◌, ◌++◌, All, OnOk, OnErr};
ghost use Rattle.atom_values.specs.Person.{IsPerson};
ghost use Rattle.atom_writer.specs.Parts.{person_text, persons_text};

use crate::element::{push_element, push_optional_element};
use crate::out::Out;
use atom_values::{NoMemory, Person};

/// Adds a person construct (RFC 4287 section 3.2) in an element of this tag.
fn push_person<W: Out>(out: &mut W, tag: &[u8], person: &Person) -> Result<(), NoMemory>
    ensures added { OnOk result (W.adds out.old out.new (person_text tag.now person.now)) }
    ensures failed { OnErr result W.can_fail }
    ensures rules { OnOk result (IsPerson person.now) }
{
    out.push(b"<")?;
    out.push(tag)?;
    out.push(b">")?;
    push_element(out, b"name", &person.name)?;
    push_optional_element(out, b"uri", &person.uri)?;
    push_optional_element(out, b"email", &person.email)?;
    out.push(b"</")?;
    out.push(tag)?;
    out.push(b">")?;
    Ok(())
}

/// Adds the persons, in order.
pub fn push_persons<W: Out>(out: &mut W, tag: &[u8], persons: &[Person]) -> Result<(), NoMemory>
    ensures added { OnOk result (W.adds out.old out.new (persons_text tag.now persons.now)) }
    ensures failed { OnErr result W.can_fail }
    ensures rules { OnOk result (All IsPerson persons.now) }
{
    for person in persons {
        push_person(out, tag, person)?;
    }
    Ok(())
}
