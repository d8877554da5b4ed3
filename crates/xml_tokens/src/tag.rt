ghost use Rattle.std.specs.Prelude.{◌≡◌, ◌≢◌, [], MatchResult, Ok, Err, IfOk, IsTrue, true, false, codes, bytes_eq};
ghost use Rattle.std.specs.List.{list_any};
ghost use Rattle.xml_tokens.specs.declared.cursor.Lapse.TheVariants.{Broken, Cut};
ghost use Rattle.xml_tokens.specs.Characters.{begins};
ghost use Rattle.xml_tokens.specs.Reading.{Reads, ReadsTag, IsAttributeRead, attribute_parts, value_behind};
ghost use Rattle.xml_tokens.specs.Reading.{IsAttributeCut, ReadsBehindName, ReadsEmptyEnd, TellsSame, is_cut, names};
ghost use Rattle.xml_tokens.specs.Keys.{AreApart, HasNeighbors};
ghost use Rattle.xml_tokens.specs.Tokens.{IsQuote};

use crate::cursor::{Cursor, Lapse};
use crate::key::{Key, key};
use atom_values::NoMemory;
use std::alloc::Global;

/// At most this many names are compared in pairs.
const FEW: usize = 8;

/// An attribute of a tag. Its value is as it is written between the quotes, and its references are checked.
#[derive(Clone, Copy)]
pub(crate) struct Attribute<'a> {
    pub(crate) name: &'a [u8],
    pub(crate) written: &'a [u8],
}

/// How a tag ends.
#[derive(Clone, Copy, PartialEq, Eq)]
pub(crate) enum TagEnd {
    /// `>`: content and an end tag follow.
    Open,
    /// `/>`.
    Empty,
    /// The text ends within the tag, and more attributes can follow. If the name is cut too, it is empty.
    Cut,
    /// The text ends between `/` and `>`.
    CutAtSlash,
}

/// A tag, with its name as it is written. No two of its attributes have the same name.
#[derive(Drop)]
pub(crate) struct Tag<'a> {
    pub(crate) name: &'a [u8],
    pub(crate) attributes: Vec<Attribute<'a>>,
    pub(crate) end: TagEnd,
}

impl Tag<'_> {
    /// Whether the text ends within the tag.
    pub(crate) fn is_cut(&self) -> bool
        ensures { result ≡ is_cut self.now.end }
    {
        matches!(self.end, TagEnd::Cut | TagEnd::CutAtSlash)
    }
}

/// Whether two attributes have the same name.
fn has_same_names(alloc: Global, attributes: &[Attribute<'_>]) -> Result<bool, NoMemory>
    ensures { IfOk result (TellsSame (names attributes.now)) }
{
    if attributes.len() <= FEW {
        return Ok(has_same_pair(attributes));
    }
    let mut keys = Vec::with_capacity(alloc, attributes.len())?;
    for attribute in attributes {
        keys.push(key(attribute.name))?;
    }
    keys.sort_unstable();
    Ok(has_same_neighbors(keys.as_slice()))
}

/// Whether two attributes have the same name. Compares each name with those before it.
fn has_same_pair(attributes: &[Attribute<'_>]) -> bool
    ensures { TellsSame (names attributes.now) result }
{
    for (index, attribute) in attributes.iter().enumerate() {
        if has_name(&attributes[..index], attribute.name) {
            return true;
        }
    }
    false
}

/// Whether an attribute has this name.
fn has_name(attributes: &[Attribute<'_>], name: &[u8]) -> bool
    ensures { result ≡ list_any (λ a. bytes_eq name.now a.name.now) attributes.now }
{
    attributes.iter().any(|attribute| name == attribute.name)
}

/// Whether a key equals the next one.
fn has_same_neighbors(keys: &[Key<'_>]) -> bool
    ensures some { result ≡ true → HasNeighbors keys.now }
    ensures none { result ≡ false → AreApart keys.now }
{
    for next in 1..keys.len() {
        if keys[next - 1] == keys[next] {
            return true;
        }
    }
    false
}

/// The lapse of a reference that ends at the end of its value: the text goes on, with a byte that isn't allowed in
/// the reference.
fn ended(lapse: Lapse) -> Lapse
    ensures cut { lapse ≡ Cut → result ≡ Broken }
    ensures other { lapse ≢ Cut → result ≡ lapse }
{
    match lapse {
        Lapse::Cut => Lapse::Broken,
        other => other,
    }
}

impl<'a> Cursor<'a> {
    /// Reads a tag (XML 1.0, productions 40 and 44). If the text ends within it, the part before the end is
    /// returned in place of `Cut`.
    pub(crate) fn tag(&mut self, alloc: Global) -> Result<Tag<'a>, Lapse>
        requires { IsTrue (begins (codes "<") self.old.rest.now) }
        ensures { ReadsTag self.old.rest.now result self.new.rest.now }
    {
        self.take(1);
        let mut attributes = Vec::new(alloc);
        let name = match self.qualified_name() {
            Ok(name) => name,
            Err(Lapse::Cut) => {
                return Ok(Tag {
                    name: b"",
                    attributes,
                    end: TagEnd::Cut,
                });
            }
            Err(Lapse::Broken) => return Err(Lapse::Broken),
            Err(Lapse::NoMemory) => return Err(Lapse::NoMemory),
        };
        let end = self.attributes(&mut attributes)?;
        let Ok(same) = has_same_names(alloc, attributes.as_slice()) else {
            return Err(Lapse::NoMemory);
        };
        if same {
            return Err(Lapse::Broken);
        }
        Ok(Tag {
            name,
            attributes,
            end,
        })
    }

    /// Reads the attributes of a tag and its end, as far as the text goes.
    fn attributes(&mut self, attributes: &mut Vec<Attribute<'a>>) -> Result<TagEnd, Lapse>
        ensures { attributes.old.items ≡ []
            → ReadsBehindName self.old.rest.now attributes.new.items result self.new.rest.now }
    {
        loop {
            let spaced = self.spaces();
            match self.rest.first() {
                None => return Ok(TagEnd::Cut),
                Some(b'>') => {
                    self.take(1);
                    return Ok(TagEnd::Open);
                }
                Some(b'/') => return self.empty_end(),
                Some(_) if !spaced => return Err(Lapse::Broken),
                Some(_) => {}
            }
            match self.attribute(attributes) {
                Ok(()) => {}
                Err(Lapse::Cut) => return Ok(TagEnd::Cut),
                Err(Lapse::Broken) => return Err(Lapse::Broken),
                Err(Lapse::NoMemory) => return Err(Lapse::NoMemory),
            }
        }
    }

    /// Reads the end of an empty tag, from its `/` on.
    fn empty_end(&mut self) -> Result<TagEnd, Lapse>
        ensures { ReadsEmptyEnd self.old.rest.now result self.new.rest.now }
    {
        match self.rest.get(1) {
            None => Ok(TagEnd::CutAtSlash),
            Some(b'>') => {
                self.take(2);
                Ok(TagEnd::Empty)
            }
            Some(_) => Err(Lapse::Broken),
        }
    }

    /// Reads an attribute (XML 1.0, production 41). Its name is kept as soon as it is whole, even if the text ends
    /// within its value.
    fn attribute(&mut self, attributes: &mut Vec<Attribute<'a>>) -> Result<(), Lapse>
        ensures read { MatchResult result
            (λ _. IsAttributeRead self.old.rest.now attributes.old.items attributes.new.items
            self.new.rest.now)
            (λ lapse. Reads attribute_parts self.old.rest.now (Err lapse) self.new.rest.now) }
        ensures cut { result ≡ Err Cut
            → IsAttributeCut self.old.rest.now attributes.old.items attributes.new.items }
    {
        let name = self.qualified_name()?;
        if self.rest.is_empty() {
            return Err(Lapse::Cut);
        }
        let kept = attributes.len();
        if attributes.push(Attribute { name, written: b"" }).is_err() {
            return Err(Lapse::NoMemory);
        }
        self.equals()?;
        let quote = self.quote()?;
        let written = self.value(quote)?;
        attributes[kept] = Attribute { name, written };
        Ok(())
    }

    /// Reads a value up to its quote and over it (XML 1.0, production 10).
    fn value(&mut self, quote: u8) -> Result<&'a [u8], Lapse>
        requires { IsQuote quote }
        ensures { MatchResult result
            (λ written. Reads (value_behind quote) self.old.rest.now (Ok written.now) self.new.rest.now)
            (λ lapse. Reads (value_behind quote) self.old.rest.now (Err lapse) self.new.rest.now) }
    {
        let mut inside = Cursor {
            rest: self.before(quote, b'<'),
        };
        let written = inside.rest;
        while !inside.rest.is_empty() {
            inside.before(b'&', b'&');
            if inside.rest.is_empty() {
                break;
            }
            if let Err(lapse) = inside.reference() {
                if self.rest.is_empty() {
                    return Err(lapse);
                }
                return Err(ended(lapse));
            }
        }
        self.literal(&[quote])?;
        Ok(written)
    }
}
