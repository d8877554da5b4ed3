ghost use Rattle.std.specs.Prelude.{◌≡◌, ◌⊎◌, ℕ, ◌≤◌, length, Ok, Err, IfOk, MatchResult};
ghost use Rattle.atom_values.specs.Entry.{DraftValue, IsDraft};
ghost use Rattle.entry_reader.specs.Spells.{Spells, entry_limit};
ghost use Rattle.entry_reader.specs.Refusal.{IsRefusedAt};
ghost use Rattle.atom_values.specs.Entry.{person_limit, link_limit, category_limit};
ghost use Rattle.atom_values.specs.Space.{trimmed};
ghost use Rattle.xml_tokens.specs.Tree.{Element as TreeElement, Content as Inner};
ghost use Rattle.xml_tokens.specs.Tree.Content.{nothing};
ghost use Rattle.entry_reader.specs.Entry.{IsReadAs, category, link, person};
ghost use Rattle.xml_tokens.specs.Children.{attribute_in, child, text_of};
ghost use Rattle.xml_tokens.specs.Names.{app, atom};
ghost use Rattle.entry_reader.specs.Faults.{constructs, dates, is_one_of, persons as person_names};
ghost use Rattle.entry_reader.specs.Faults.Within.{in_entry};
ghost use Rattle.xml_tokens.specs.Progress.{Point, IsAt, IsElementOf, IsOver, IsReading};
ghost use Rattle.xml_tokens.specs.Progress.{total_of, depth_of, left_of, pending};
ghost use Rattle.entry_reader.specs.Parts.{IsConstructMade, IsDateMade, IsEntryFrom, IsFaultlessIn, IsItemMade, IsPartRead};
ghost use Rattle.entry_reader.specs.Parts.{ArePartsFrom, IsConstructKind, IsContentKind, IsControlRead, IsDraftRead, IsSlot, IsSoFar};
ghost use Rattle.entry_reader.specs.Parts.{category_in, count_of, elements_of, link_in, other_names};
ghost use Rattle.xml_tokens.specs.Children.{with_child};
ghost use Rattle.std.specs.Prelude.{◌+◌, ◌<◌, OnOk, Some, None, is_some, true, false, codes, IfSome, List, MatchOption, unwrap_or};
ghost use Rattle.entry_reader.specs.declared.fault.Why.{Why};

use crate::fault::{EarlyEnd, EntryFault, Why};
use crate::person::person;
use crate::rules::Ruled;
use crate::text::{attribute_text, copied_text, inner_fault, kind, text, two_texts};
use atom_values::{
    AtomText, Category, Draft, Link, ListFault, MAX_CATEGORIES, MAX_LINKS, MAX_PERSONS, Many,
    NoMemory, Person, Stamp, Text, TextKind,
};
use std::alloc::Global;
use xml_tokens::{Element, Elements, Event, TokenFault};

/// The greatest length of an entry document, in bytes.
pub const MAX_ENTRY: usize = 65_536;

/// The greatest depth of an element in an entry document. The root has depth 1.
pub const MAX_DEPTH: usize = 32;

/// The relation of a link that states none (RFC 4287 section 4.2.7.2).
const ALTERNATE: &[u8] = b"alternate";

/// The text of `draft` that says that an entry is no draft (RFC 5023 section 13.1.1).
const NO: &[u8] = b"no";

/// The parts of an entry that are read so far.
#[derive(Drop)]
struct Parts {
    id: Option<AtomText>,
    title: Option<Text>,
    updated: Option<Stamp>,
    published: Option<Stamp>,
    authors: Many<Person, MAX_PERSONS>,
    contributors: Many<Person, MAX_PERSONS>,
    links: Many<Link, MAX_LINKS>,
    categories: Many<Category, MAX_CATEGORIES>,
    rights: Option<Text>,
    summary: Option<Text>,
    content: Option<Text>,
}

/// Reads an entry document of at most [`MAX_ENTRY`] bytes (RFC 4287 section 4.1.2), and returns its draft.
///
/// `NotRead` has the first of these reasons that holds:
///
/// - `NotUtf8`: the bytes aren't UTF-8, or the declaration names another encoding.
/// - `Doctype`, `TooDeep`, `NotWellFormed`: a token isn't allowed where it is. The first such token counts.
/// - `NotAnEntry`: the root isn't Atom's `entry`.
/// - The reason of the first element in document order that has one. [`Why`] lists the reasons.
/// - `Missing`: there is no `title`. The offset is that of the root.
///
/// `NoMemory` if memory runs out, also where the bytes would be refused. One pass checks the characters, and a
/// second one reads the tokens.
pub fn read_entry(alloc: Global, bytes: &[u8]) -> Result<Draft, EntryFault>
    requires { length bytes.now ≤ entry_limit }
    // The bytes spell the draft that is returned.
    ensures found { IfOk result (λ draft. IsDraft draft × Spells bytes.now draft) }
    // Each draft that the bytes spell is returned, unless memory runs out.
    ensures only { (draft : DraftValue) → Spells bytes.now draft
        → (result ≡ Ok draft) ⊎ (result ≡ Err EntryFault.NoMemory) }
    // A refusal states why and where.
    ensures refused { (at : ℕ) (why : Why) → result ≡ Err (EntryFault.NotRead at why)
        → IsRefusedAt bytes.now at why }
{
    let mut elements = Elements::new(alloc, MAX_DEPTH, bytes)?;
    let root = match elements.next()? {
        Some(Event::Begin(root)) => root,
        // The first part of a document's tree is its root.
        Some(Event::End) => return Err(broken(bytes.len())),
        Some(Event::Said(_)) => return Err(broken(bytes.len())),
        None => return Err(broken(bytes.len())),
    };
    match entry(alloc, &mut elements, &root) {
        Ok(draft) => Ok(draft),
        Err(EarlyEnd::Fault(fault)) => Err(EntryFault::from(fault)),
        Err(EarlyEnd::Refused { at, why }) => {
            elements.drain()?;
            Err(EntryFault::NotRead { at, why })
        }
    }
}

/// The fault of an input that ends too early.
fn broken(at: usize) -> EntryFault {
    EntryFault::NotRead {
        at,
        why: Why::NotWellFormed,
    }
}

/// Reads the entry with this root, and the rest of the document.
fn entry<'a>(
    alloc: Global,
    elements: &mut Elements<'a>,
    root: &Element<'a>,
) -> Result<Draft, EarlyEnd>
    requires reading { IsReading elements.old }
    requires inside { 1 ≤ depth_of elements.old }
    ensures read { (from : Point) (e : TreeElement) → IsAt elements.old from → IsElementOf e root.now
        → IsEntryFrom (total_of elements.old) (pending elements.old) from e result elements.new }
    ensures kept { IfOk result IsDraft }
    ensures over { OnOk result (IsOver elements.new) }
{
    if !root.is_atom(b"entry") {
        return Err(refused(root, Why::NotAnEntry));
    }
    let parts = read_parts(alloc, elements)?;
    if let Err(fault) = elements.drain() {
        drop(parts);
        return Err(EarlyEnd::Fault(fault));
    }
    match parts.draft() {
        Some(draft) => Ok(draft),
        None => Err(refused(root, Why::Missing)),
    }
}

/// Reads the children of an entry, to its end.
fn read_parts(alloc: Global, elements: &mut Elements<'_>) -> Result<Parts, EarlyEnd>
    requires reading { IsReading elements.old }
    requires inside { 1 ≤ depth_of elements.old }
    ensures { (from : Point) → IsAt elements.old from
        → ArePartsFrom (total_of elements.old) (pending elements.old) from result elements.new }
{
    let mut parts = Parts::new(alloc);
    loop {
        match elements.next()? {
            Some(Event::Begin(child)) => parts.child(alloc, elements, &child)?,
            Some(Event::Said(_)) => {}
            Some(Event::End) => return Ok(parts),
            None => return Ok(parts),
        }
    }
}

/// The refusal of an element for its own sake.
fn refused(element: &Element<'_>, why: Why) -> EarlyEnd
    ensures { result ≡ EarlyEnd.Refused element.now.at why }
{
    EarlyEnd::Refused {
        at: element.at,
        why,
    }
}

/// Refuses an element whose slot is filled: an earlier element has the same name.
fn once<T>(slot: &Option<T>, element: &Element<'_>) -> Result<(), EarlyEnd>
    ensures { MatchResult result (λ _. is_some slot.now ≡ false)
        (λ stop. (is_some slot.now ≡ true) × (stop ≡ EarlyEnd.Refused element.now.at Why.Twice)) }
{
    if slot.is_some() {
        Err(refused(element, Why::Twice))
    } else {
        Ok(())
    }
}

/// The refusal of an element that its list has no room for, or out of memory.
fn list_end(fault: ListFault, element: &Element<'_>) -> EarlyEnd
    ensures full { (count : ℕ) → fault ≡ ListFault.TooMany count
        → result ≡ EarlyEnd.Refused element.now.at Why.TooMany }
    ensures memory { fault ≡ ListFault.NoMemory → result ≡ EarlyEnd.Fault TokenFault.NoMemory }
{
    match fault {
        ListFault::TooMany { count: _ } => refused(element, Why::TooMany),
        ListFault::NoMemory => EarlyEnd::Fault(TokenFault::NoMemory),
    }
}

impl Parts {
    /// The parts of an entry of which nothing is read.
    fn new(alloc: Global) -> Parts
        ensures { IsSoFar nothing result }
    {
        Parts {
            id: None,
            title: None,
            updated: None,
            published: None,
            authors: Many::new(alloc),
            contributors: Many::new(alloc),
            links: Many::new(alloc),
            categories: Many::new(alloc),
            rights: None,
            summary: None,
            content: None,
        }
    }

    /// The draft with these parts. `None` if there is no title.
    fn draft(self) -> Option<Draft>
        ensures made { (b : Inner) → IsSoFar b self
            → MatchOption result (child (codes "title") b ≡ None) (IsReadAs b) }
        ensures kept { IfSome result IsDraft }
    {
        let Parts {
            id,
            title,
            updated,
            published,
            authors,
            contributors,
            links,
            categories,
            rights,
            summary,
            content,
        } = self;
        let draft = Draft {
            id,
            title: title?,
            updated,
            published,
            authors,
            contributors,
            links,
            categories,
            rights,
            summary,
            content,
        };
        draft.show_rules();
        Some(draft)
    }

    /// Reads a child of the entry to its end.
    fn child<'a>(
        &mut self,
        alloc: Global,
        elements: &mut Elements<'a>,
        child: &Element<'a>,
    ) -> Result<(), EarlyEnd>
        requires reading { IsReading elements.old }
        requires inside { 1 ≤ depth_of elements.old }
        ensures read { (from : Point) (b : Inner) (e : TreeElement) → IsAt elements.old from
            → IsElementOf e child.now → IsSoFar b self.old
            → IsPartRead (total_of elements.old) (pending elements.old) from in_entry (elements_of b) e
            (λ inner _. IsSoFar (with_child b e inner) self.new) result elements.new }
        ensures depth { OnOk result (depth_of elements.new + 1 ≡ depth_of elements.old) }
        ensures shorter { OnOk result (left_of elements.new < left_of elements.old) }
    {
        if child.is_atom(b"id") {
            self.id(alloc, elements, child)
        } else if child.is_atom(b"updated") {
            date(elements, child, &mut self.updated)
        } else if child.is_atom(b"published") {
            date(elements, child, &mut self.published)
        } else if child.is_atom(b"author") {
            author(alloc, elements, child, &mut self.authors)
        } else if child.is_atom(b"contributor") {
            author(alloc, elements, child, &mut self.contributors)
        } else if child.is_atom(b"link") {
            self.link(alloc, elements, child)
        } else if child.is_atom(b"category") {
            self.category(alloc, elements, child)
        } else {
            self.other(alloc, elements, child)
        }
    }

    /// Reads the identifier (RFC 4287 section 4.2.6).
    fn id<'a>(
        &mut self,
        alloc: Global,
        elements: &mut Elements<'a>,
        child: &Element<'a>,
    ) -> Result<(), EarlyEnd>
        requires reading { IsReading elements.old }
        requires inside { 1 ≤ depth_of elements.old }
        ensures read { (from : Point) (before : List TreeElement) (e : TreeElement) → IsAt elements.old from
            → IsElementOf e child.now → e.name ≡ atom (codes "id")
            → IsSlot e.name before (is_some self.old.id)
            → IsPartRead (total_of elements.old) (pending elements.old) from in_entry before e
            (λ inner _. (self.new ≡ record self.old { id = Some (trimmed (text_of inner)) })
            × IsFaultlessIn in_entry before e inner) result elements.new }
        ensures depth { OnOk result (depth_of elements.new + 1 ≡ depth_of elements.old) }
        ensures shorter { OnOk result (left_of elements.new < left_of elements.old) }
    {
        once(&self.id, child)?;
        let content = elements.content()?;
        if let Some((at, why)) = inner_fault(&content) {
            return Err(EarlyEnd::Refused { at, why });
        }
        self.id = Some(copied_text(alloc, content.trimmed())?);
        Ok(())
    }

    /// Reads a text construct (RFC 4287 section 3.1) or the control element (RFC 5023 section 13.1.1), or skips an
    /// element of another name.
    fn other<'a>(
        &mut self,
        alloc: Global,
        elements: &mut Elements<'a>,
        child: &Element<'a>,
    ) -> Result<(), EarlyEnd>
        requires reading { IsReading elements.old }
        requires inside { 1 ≤ depth_of elements.old }
        ensures read { (from : Point) (b : Inner) (e : TreeElement) → IsAt elements.old from
            → IsElementOf e child.now → IsSoFar b self.old → is_one_of other_names e.name ≡ false
            → IsPartRead (total_of elements.old) (pending elements.old) from in_entry (elements_of b) e
            (λ inner _. IsSoFar (with_child b e inner) self.new) result elements.new }
        ensures depth { OnOk result (depth_of elements.new + 1 ≡ depth_of elements.old) }
        ensures shorter { OnOk result (left_of elements.new < left_of elements.old) }
    {
        if child.is_atom(b"title") {
            construct(alloc, elements, child, &mut self.title)
        } else if child.is_atom(b"rights") {
            construct(alloc, elements, child, &mut self.rights)
        } else if child.is_atom(b"summary") {
            construct(alloc, elements, child, &mut self.summary)
        } else if child.is_atom(b"content") {
            construct(alloc, elements, child, &mut self.content)
        } else if child.is_app(b"control") {
            control(elements, child)
        } else {
            Ok(elements.skip()?)
        }
    }

    /// Reads a link (RFC 4287 section 4.2.7).
    fn link<'a>(
        &mut self,
        alloc: Global,
        elements: &mut Elements<'a>,
        child: &Element<'a>,
    ) -> Result<(), EarlyEnd>
        requires reading { IsReading elements.old }
        requires inside { 1 ≤ depth_of elements.old }
        ensures read { (from : Point) (before : List TreeElement) (e : TreeElement) → IsAt elements.old from
            → IsElementOf e child.now → e.name ≡ atom (codes "link")
            → length self.old.links.items ≡ count_of e.name before
            → IsPartRead (total_of elements.old) (pending elements.old) from in_entry before e
            (λ inner made. (self.new ≡ record self.old { links = self.new.links })
            × IsItemMade link before e self.old.links.items self.new.links.items inner made)
            result elements.new }
        ensures depth { OnOk result (depth_of elements.new + 1 ≡ depth_of elements.old) }
        ensures shorter { OnOk result (left_of elements.new < left_of elements.old) }
    {
        let Some(link) = link_of(alloc, child)? else {
            return Err(refused(child, Why::Missing));
        };
        if self.links.len() == MAX_LINKS as usize {
            drop(link);
            return Err(refused(child, Why::TooMany));
        }
        if let Err(fault) = self.links.push(link) {
            return Err(list_end(fault, child));
        }
        Ok(elements.skip()?)
    }

    /// Reads a category (RFC 4287 section 4.2.2).
    fn category<'a>(
        &mut self,
        alloc: Global,
        elements: &mut Elements<'a>,
        child: &Element<'a>,
    ) -> Result<(), EarlyEnd>
        requires reading { IsReading elements.old }
        requires inside { 1 ≤ depth_of elements.old }
        ensures read { (from : Point) (before : List TreeElement) (e : TreeElement) → IsAt elements.old from
            → IsElementOf e child.now → e.name ≡ atom (codes "category")
            → length self.old.categories.items ≡ count_of e.name before
            → IsPartRead (total_of elements.old) (pending elements.old) from in_entry before e
            (λ inner made. (self.new ≡ record self.old { categories = self.new.categories })
            × IsItemMade category before e self.old.categories.items self.new.categories.items inner made)
            result elements.new }
        ensures depth { OnOk result (depth_of elements.new + 1 ≡ depth_of elements.old) }
        ensures shorter { OnOk result (left_of elements.new < left_of elements.old) }
    {
        let Some(category) = category_of(alloc, child)? else {
            return Err(refused(child, Why::Missing));
        };
        if self.categories.len() == MAX_CATEGORIES as usize {
            drop(category);
            return Err(refused(child, Why::TooMany));
        }
        if let Err(fault) = self.categories.push(category) {
            return Err(list_end(fault, child));
        }
        Ok(elements.skip()?)
    }
}

/// The link that an element's attributes state. `None` if it has no `href`.
fn link_of(alloc: Global, element: &Element<'_>) -> Result<Option<Link>, NoMemory>
    ensures { IfOk result (λ found. (e : TreeElement) → IsElementOf e element.now → found ≡ link_in e) }
{
    let Some(href) = attribute_text(alloc, element, b"href")? else {
        return Ok(None);
    };
    let rel = relation(alloc, element)?;
    let (media, hreflang) = two_texts(alloc, element, b"type", b"hreflang")?;
    let (title, length) = two_texts(alloc, element, b"title", b"length")?;
    Ok(Some(Link {
        href,
        rel,
        media,
        hreflang,
        title,
        length,
    }))
}

/// The relation of a link.
fn relation(alloc: Global, element: &Element<'_>) -> Result<AtomText, NoMemory>
    ensures { IfOk result (λ rel. (e : TreeElement) → IsElementOf e element.now
        → rel ≡ unwrap_or (attribute_in (codes "rel") e.attributes) (codes "alternate")) }
{
    match attribute_text(alloc, element, b"rel")? {
        Some(rel) => Ok(rel),
        None => copied_text(alloc, ALTERNATE),
    }
}

/// The category that an element's attributes state. `None` if it has no `term`.
fn category_of(alloc: Global, element: &Element<'_>) -> Result<Option<Category>, NoMemory>
    ensures { IfOk result (λ found. (e : TreeElement) → IsElementOf e element.now → found ≡ category_in e) }
{
    let Some(term) = attribute_text(alloc, element, b"term")? else {
        return Ok(None);
    };
    Ok(Some(Category {
        term,
        scheme: attribute_text(alloc, element, b"scheme")?,
        label: attribute_text(alloc, element, b"label")?,
    }))
}

/// Reads a date (RFC 4287 section 3.3) into `slot`. Errors: `Twice`, `BadDate`, or the first element in the date.
fn date<'a>(
    elements: &mut Elements<'a>,
    child: &Element<'a>,
    slot: &mut Option<Stamp>,
) -> Result<(), EarlyEnd>
    requires reading { IsReading elements.old }
    requires inside { 1 ≤ depth_of elements.old }
    ensures read { (from : Point) (before : List TreeElement) (e : TreeElement) → IsAt elements.old from
        → IsElementOf e child.now → is_one_of dates e.name ≡ true → IsSlot e.name before (is_some slot.old)
        → IsPartRead (total_of elements.old) (pending elements.old) from in_entry before e
        (IsDateMade before e slot.new) result elements.new }
    ensures depth { OnOk result (depth_of elements.new + 1 ≡ depth_of elements.old) }
    ensures shorter { OnOk result (left_of elements.new < left_of elements.old) }
{
    once(slot, child)?;
    let content = elements.content()?;
    let Some(moment) = Stamp::parse(content.trimmed()) else {
        return Err(refused(child, Why::BadDate));
    };
    if let Some((at, why)) = inner_fault(&content) {
        return Err(EarlyEnd::Refused { at, why });
    }
    *slot = Some(moment);
    Ok(())
}

/// Reads an author or a contributor (RFC 4287 sections 4.2.1 and 4.2.3).
fn author<'a>(
    alloc: Global,
    elements: &mut Elements<'a>,
    child: &Element<'a>,
    persons: &mut Many<Person, MAX_PERSONS>,
) -> Result<(), EarlyEnd>
    requires reading { IsReading elements.old }
    requires inside { 1 ≤ depth_of elements.old }
    ensures read { (from : Point) (before : List TreeElement) (e : TreeElement) → IsAt elements.old from
        → IsElementOf e child.now → is_one_of person_names e.name ≡ true
        → length persons.old.items ≡ count_of e.name before
        → IsPartRead (total_of elements.old) (pending elements.old) from in_entry before e
        (IsItemMade person before e persons.old.items persons.new.items) result elements.new }
    ensures depth { OnOk result (depth_of elements.new + 1 ≡ depth_of elements.old) }
    ensures shorter { OnOk result (left_of elements.new < left_of elements.old) }
{
    let full = persons.len() == MAX_PERSONS as usize;
    let person = person(alloc, elements, child, full)?;
    match persons.push(person) {
        Ok(()) => Ok(()),
        Err(fault) => Err(list_end(fault, child)),
    }
}

/// The kind of a text construct, or why the construct is refused for its attributes.
fn construct_kind(alloc: Global, element: &Element<'_>) -> Result<Result<TextKind, Why>, NoMemory>
    ensures { IfOk result (λ kind. (e : TreeElement) → IsElementOf e element.now → IsConstructKind e kind) }
{
    if element.is_atom(b"content") {
        content_kind(alloc, element)
    } else {
        kind(alloc, element, Why::NotAnEntry)
    }
}

/// The kind of the content, which may also be elsewhere or have a media type (RFC 4287 section 4.1.3).
fn content_kind(alloc: Global, content: &Element<'_>) -> Result<Result<TextKind, Why>, NoMemory>
    ensures { IfOk result (λ kind. (e : TreeElement) → IsElementOf e content.now
        → IsContentKind e.attributes kind) }
{
    match kind(alloc, content, Why::OutOfLine)? {
        Ok(kind) => match content.attribute(alloc, b"src")? {
            Some(_) => Ok(Err(Why::OutOfLine)),
            None => Ok(Ok(kind)),
        },
        Err(why) => Ok(Err(why)),
    }
}

/// Reads a text construct (RFC 4287 section 3.1) into `slot`. Errors: its `type` or `src`, `Twice`, or the first
/// element in it.
fn construct<'a>(
    alloc: Global,
    elements: &mut Elements<'a>,
    child: &Element<'a>,
    slot: &mut Option<Text>,
) -> Result<(), EarlyEnd>
    requires reading { IsReading elements.old }
    requires inside { 1 ≤ depth_of elements.old }
    ensures read { (from : Point) (before : List TreeElement) (e : TreeElement) → IsAt elements.old from
        → IsElementOf e child.now → is_one_of constructs e.name ≡ true
        → IsSlot e.name before (is_some slot.old)
        → IsPartRead (total_of elements.old) (pending elements.old) from in_entry before e
        (IsConstructMade before e slot.new) result elements.new }
    ensures depth { OnOk result (depth_of elements.new + 1 ≡ depth_of elements.old) }
    ensures shorter { OnOk result (left_of elements.new < left_of elements.old) }
{
    let kind = match construct_kind(alloc, child)? {
        Ok(kind) => kind,
        Err(why) => return Err(refused(child, why)),
    };
    once(slot, child)?;
    let content = elements.content()?;
    if let Some((at, why)) = inner_fault(&content) {
        return Err(EarlyEnd::Refused { at, why });
    }
    *slot = Some(Text {
        kind,
        value: text(content.text)?,
    });
    Ok(())
}

/// Reads a child of the control element, and returns whether it says that the entry is a draft.
fn says_draft<'a>(elements: &mut Elements<'a>, child: &Element<'a>) -> Result<bool, TokenFault>
    requires reading { IsReading elements.old }
    requires inside { 1 ≤ depth_of elements.old }
    ensures read { (from : Point) (e : TreeElement) → IsAt elements.old from → IsElementOf e child.now
        → IsDraftRead (total_of elements.old) (pending elements.old) from e result elements.new }
    ensures depth { OnOk result (depth_of elements.new + 1 ≡ depth_of elements.old) }
    ensures shorter { OnOk result (left_of elements.new < left_of elements.old) }
{
    if !child.is_app(b"draft") {
        elements.skip()?;
        return Ok(false);
    }
    let content = elements.content()?;
    Ok(content.trimmed() != NO)
}

/// Reads the rest of a control element, and returns whether a child says that the entry is a draft.
fn is_draft(elements: &mut Elements<'_>) -> Result<bool, TokenFault>
    requires reading { IsReading elements.old }
    requires inside { 1 ≤ depth_of elements.old }
    ensures read { (from : Point) → IsAt elements.old from
        → IsControlRead (total_of elements.old) (pending elements.old) from result elements.new }
    ensures depth { OnOk result (depth_of elements.new + 1 ≡ depth_of elements.old) }
    ensures shorter { OnOk result (left_of elements.new < left_of elements.old) }
{
    let mut is_draft = false;
    loop {
        match elements.next()? {
            Some(Event::Begin(child)) => is_draft |= says_draft(elements, &child)?,
            Some(Event::Said(_)) => {}
            Some(Event::End) => return Ok(is_draft),
            None => return Ok(is_draft),
        }
    }
}

/// Reads a control element (RFC 5023 section 13.1.1). `Draft` if a `draft` in it has another text than `no`.
fn control<'a>(elements: &mut Elements<'a>, control: &Element<'a>) -> Result<(), EarlyEnd>
    requires reading { IsReading elements.old }
    requires inside { 1 ≤ depth_of elements.old }
    ensures read { (from : Point) (before : List TreeElement) (e : TreeElement) → IsAt elements.old from
        → IsElementOf e control.now → e.name ≡ app (codes "control")
        → IsPartRead (total_of elements.old) (pending elements.old) from in_entry before e
        (λ inner _. IsFaultlessIn in_entry before e inner) result elements.new }
    ensures depth { OnOk result (depth_of elements.new + 1 ≡ depth_of elements.old) }
    ensures shorter { OnOk result (left_of elements.new < left_of elements.old) }
{
    if is_draft(elements)? {
        return Err(refused(control, Why::Draft));
    }
    Ok(())
}
