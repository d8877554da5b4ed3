ghost use Rattle.std.specs.Prelude.{◌≡◌, ℕ, ◌+◌, ◌<◌, ◌≤◌, List, [], OnOk, Bool, true, false, Some, if◌then◌else◌};
ghost use Rattle.atom_values.specs.Entry.{person_limit};
ghost use Rattle.xml_tokens.specs.Tree.{Element as TreeElement, Content as Inner, Event as Told};
ghost use Rattle.entry_reader.specs.Entry.{person};
ghost use Rattle.entry_reader.specs.Faults.{Within, persons, is_one_of};
ghost use Rattle.entry_reader.specs.Faults.Within.{in_entry};
ghost use Rattle.xml_tokens.specs.Progress.{Point, AreInner, IsAt, IsElementOf, IsFaultFrom, IsLed, IsReading, total_of, depth_of, left_of, pending};
ghost use Rattle.entry_reader.specs.Parts.{AreFieldsOf, AreFieldsFrom, IsFieldOf, IsFieldsChild, IsPartRead, IsFaultlessIn, count_of, person_of, taken_fields};

use crate::fault::{EarlyEnd, Why};
use crate::text::{inner_fault, text};
use atom_values::{AtomText, NoMemory, Person};
use std::alloc::Global;
use xml_tokens::{Content, Element, Elements, Event, TokenFault};

/// The fields of a person that are read so far, and the refusal of the first child that has one.
#[derive(Drop)]
struct Fields {
    name: Option<AtomText>,
    uri: Option<AtomText>,
    email: Option<AtomText>,
    refused: Option<(usize, Why)>,
}

/// A child of a person.
#[derive(Clone, Copy)]
enum Field {
    Name,
    Uri,
    Email,
}

/// The field that an element has.
fn field_of(element: &Element<'_>) -> Option<Field>
    ensures { (e : TreeElement) → IsElementOf e element.now → IsFieldOf e.name result }
{
    if element.is_atom(b"name") {
        Some(Field::Name)
    } else if element.is_atom(b"uri") {
        Some(Field::Uri)
    } else if element.is_atom(b"email") {
        Some(Field::Email)
    } else {
        None
    }
}

impl Fields {
    /// Reads a child to its end.
    fn child<'a>(
        &mut self,
        alloc: Global,
        elements: &mut Elements<'a>,
        child: &Element<'a>,
    ) -> Result<(), TokenFault>
        requires reading { IsReading elements.old }
        requires inside { 1 ≤ depth_of elements.old }
        ensures read { (from : Point) (b : Inner) (e : TreeElement) → IsAt elements.old from
            → AreFieldsOf b self.old
            → IsElementOf e child.now
            → IsFieldsChild (total_of elements.old) (pending elements.old) from b e result self.new elements.new }
        ensures depth { OnOk result (depth_of elements.new + 1 ≡ depth_of elements.old) }
        ensures shorter { OnOk result (left_of elements.new < left_of elements.old) }
    {
        let Some(field) = field_of(child) else {
            return elements.skip();
        };
        let content = elements.content()?;
        self.take(field, content, child.at)?;
        Ok(())
    }

    /// Takes the content of a child at offset `at` as a field.
    fn take(&mut self, field: Field, content: Content, at: usize) -> Result<(), NoMemory>
        ensures { OnOk result (self.new ≡ taken_fields field content.text.items content.inner at self.old) }
    {
        let inner = inner_fault(&content);
        let text = text(content.text)?;
        match field {
            Field::Name => {
                let refused = slot_refusal(self.name.is_some(), at, inner);
                self.name = Some(text);
                self.refused = self.refused.or(refused);
            }
            Field::Uri => {
                let refused = slot_refusal(self.uri.is_some(), at, inner);
                self.uri = Some(text);
                self.refused = self.refused.or(refused);
            }
            Field::Email => {
                let refused = slot_refusal(self.email.is_some(), at, inner);
                self.email = Some(text);
                self.refused = self.refused.or(refused);
            }
        }
        Ok(())
    }
}

impl Fields {
    /// The person at offset `at` with these fields, or its refusal. `full` says that the list of persons has no
    /// room.
    fn person(self, at: usize, full: bool) -> Result<Person, EarlyEnd>
        ensures { result ≡ person_of self at full }
    {
        let Fields {
            name,
            uri,
            email,
            refused,
        } = self;
        let Some(name) = name else {
            return Err(EarlyEnd::Refused {
                at,
                why: Why::Missing,
            });
        };
        if full {
            return Err(EarlyEnd::Refused {
                at,
                why: Why::TooMany,
            });
        }
        if let Some((at, why)) = refused {
            return Err(EarlyEnd::Refused { at, why });
        }
        Ok(Person { name, uri, email })
    }
}

/// The refusal of a child at offset `at`. `taken` says whether its field is read already, and `inner` is the
/// refusal of its content.
fn slot_refusal(taken: bool, at: usize, inner: Option<(usize, Why)>) -> Option<(usize, Why)>
    ensures { result ≡ (if taken then Some (at, Why.Twice) else inner) }
{
    if taken { Some((at, Why::Twice)) } else { inner }
}

/// Reads the fields of a person, to its end.
fn read_fields(alloc: Global, elements: &mut Elements<'_>) -> Result<Fields, TokenFault>
    requires reading { IsReading elements.old }
    requires inside { 1 ≤ depth_of elements.old }
    ensures read { (from : Point) → IsAt elements.old from
        → AreFieldsFrom (total_of elements.old) (pending elements.old) from result elements.new }
    ensures depth { OnOk result (depth_of elements.new + 1 ≡ depth_of elements.old) }
    ensures shorter { OnOk result (left_of elements.new < left_of elements.old) }
{
    let mut fields = Fields {
        name: None,
        uri: None,
        email: None,
        refused: None,
    };
    loop {
        match elements.next()? {
            Some(Event::Begin(child)) => fields.child(alloc, elements, &child)?,
            Some(Event::Said(_)) => {}
            Some(Event::End) => return Ok(fields),
            None => return Ok(fields),
        }
    }
}

/// Reads a person (RFC 4287 section 3.2) to its end. `full` says that the list of persons has no room. Errors:
/// `Missing` without a name, else `TooMany` if `full`, else the first child that is refused.
pub(crate) fn person<'a>(
    alloc: Global,
    elements: &mut Elements<'a>,
    element: &Element<'a>,
    full: bool,
) -> Result<Person, EarlyEnd>
    requires reading { IsReading elements.old }
    requires inside { 1 ≤ depth_of elements.old }
    ensures read { (from : Point) (before : List TreeElement) (e : TreeElement) → IsAt elements.old from
        → IsElementOf e element.now → is_one_of persons e.name ≡ true
        → (full ≡ true → person_limit ≤ count_of e.name before)
        → (full ≡ false → count_of e.name before < person_limit)
        → IsPartRead (total_of elements.old) (pending elements.old) from in_entry before e
        (λ inner made. (made ≡ person (record { element = e; content = inner }))
        × IsFaultlessIn in_entry before e inner)
        result elements.new }
    ensures depth { OnOk result (depth_of elements.new + 1 ≡ depth_of elements.old) }
    ensures shorter { OnOk result (left_of elements.new < left_of elements.old) }
{
    read_fields(alloc, elements)?.person(element.at, full)
}
