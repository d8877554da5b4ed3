ghost use Rattle.std.specs.Prelude.{◌≡◌, ℕ, List, [], ◌∷◌, option_map, reverse, IsSome, OnOk};
ghost use Rattle.xml_tokens.specs.Characters.{QName, IsQName, name_text};
ghost use Rattle.xml_tokens.specs.Stages.{Open, namespace_of, outer_scope};
ghost use Rattle.xml_tokens.specs.Reading.{kind_of};
ghost use Rattle.xml_tokens.specs.Scopes.{AreIndexed, AreScopesOf, Declares, IsDeclaredPrefix, IsTakenOut, OpensScope};
ghost use Rattle.xml_tokens.specs.Scopes.{checked_place, found_in, is_first, place_before, place_of, scope_of};

use crate::cursor::first;
use crate::key::{Key, key};
use crate::tag::Attribute;
use crate::value::value;
use atom_values::NoMemory;
use std::alloc::Global;
use std::collections::BTreeMap;

/// The namespace of Atom (RFC 4287 section 2).
const ATOM: &[u8] = b"http://www.w3.org/2005/Atom";

/// The namespace of the Atom Publishing Protocol (RFC 5023 section 4.1).
const APP: &[u8] = b"http://www.w3.org/2007/app";

/// The namespace of the deleted entries of Atom (RFC 6721 section 3).
const TOMBSTONES: &[u8] = b"http://purl.org/atompub/tombstones/1.0";

/// The prefix that declares prefixes, and the attribute that declares the default namespace (Namespaces in XML
/// 1.0, section 3).
const XMLNS: &[u8] = b"xmlns";

/// The prefix that needs no declaration.
const XML: &[u8] = b"xml";

/// The namespace of an element, as far as a reader tells namespaces apart.
#[derive(Clone, Copy, PartialEq, Eq)]
pub enum Namespace {
    /// Atom (RFC 4287 section 2).
    Atom,
    /// The Atom Publishing Protocol (RFC 5023 section 4.1).
    App,
    /// The deleted entries of Atom (RFC 6721 section 3).
    Tombstones,
    /// Another namespace, or none.
    Other,
}

/// The namespaces in scope (Namespaces in XML 1.0, section 6). The empty prefix stands for the default namespace.
#[derive(Drop)]
pub(crate) struct Scopes<'a> {
    /// The declarations of the open elements, the last one last.
    declared: Vec<Declaration<'a>>,
    /// The place in `declared` of the last declaration of each prefix. A prefix that is declared no more keeps its
    /// place, where there is no declaration then, or one of another prefix.
    places: BTreeMap<Key<'a>, usize>,
    /// The number of open elements.
    depth: usize,
}

/// A declaration of an open element.
#[derive(Clone, Copy)]
struct Declaration<'a> {
    /// The number of elements around the element.
    outer: usize,
    prefix: &'a [u8],
    namespace: Namespace,
    /// The place of the declaration of this prefix before it. `None` if it is the first one.
    before: Option<usize>,
}

/// The prefix of a qualified name, which may be empty, and its local part.
pub(crate) fn split_name(name: &[u8]) -> (&[u8], &[u8])
    ensures { (q : QName) → IsQName q → name_text q ≡ name.now
        → (result.0.now ≡ q.prefix) × (result.1.now ≡ q.local) }
{
    match first(name, b':') {
        Some(colon) => (&name[..colon], &name[colon + 1..]),
        None => (&name[..0], name),
    }
}

/// The prefix that an attribute of this name declares.
fn declared_prefix(name: &[u8]) -> Option<&[u8]>
    ensures { IsDeclaredPrefix name.now (option_map (λ prefix. prefix.now) result) }
{
    let (prefix, local) = split_name(name);
    if prefix == XMLNS {
        Some(local)
    } else if prefix.is_empty() && local == XMLNS {
        Some(prefix)
    } else {
        None
    }
}

/// The namespace with this name.
fn namespace_of(name: &[u8]) -> Namespace
    ensures { result ≡ kind_of name.now }
{
    if name == ATOM {
        Namespace::Atom
    } else if name == APP {
        Namespace::App
    } else if name == TOMBSTONES {
        Namespace::Tombstones
    } else {
        Namespace::Other
    }
}

/// The namespace of a prefix that no open element declares: there is no default namespace, and `xml` is set
/// (Namespaces in XML 1.0, section 3).
fn outer_namespace(prefix: &[u8]) -> Option<Namespace>
    ensures { result ≡ option_map kind_of (namespace_of outer_scope prefix.now) }
{
    if prefix.is_empty() || prefix == XML {
        Some(Namespace::Other)
    } else {
        None
    }
}

impl<'a> Scopes<'a> {
    /// The scopes outside the root.
    pub(crate) fn new(alloc: Global) -> Scopes<'a>
        ensures { AreScopesOf [] result }
    {
        Scopes {
            declared: Vec::new(alloc),
            places: BTreeMap::new(alloc),
            depth: 0,
        }
    }

    /// Adds the declarations of an element that is opened.
    pub(crate) fn declare(
        &mut self,
        alloc: Global,
        attributes: &[Attribute<'a>],
    ) -> Result<(), NoMemory>
        ensures { OnOk result (OpensScope attributes.now self.old self.new) }
    {
        // The last one first, so that the first of two declarations of a prefix counts.
        for attribute in attributes.iter().rev() {
            self.add(alloc, attribute)?;
        }
        // No memory holds so many open elements.
        let Some(depth) = self.depth.checked_add(1) else {
            return Err(NoMemory);
        };
        self.depth = depth;
        Ok(())
    }

    /// Adds the declaration that the attribute is, if it is one.
    fn add(&mut self, alloc: Global, attribute: &Attribute<'a>) -> Result<(), NoMemory>
        ensures { OnOk result (Declares attribute.now self.old self.new) }
    {
        let Some(prefix) = declared_prefix(attribute.name) else {
            return Ok(());
        };
        let name = value(alloc, attribute.written)?;
        let namespace = namespace_of(name.as_slice());
        let place = self.places.insert(key(prefix), self.declared.len())?;
        let before = self.checked(place, prefix);
        self.declared.push(Declaration {
            outer: self.depth,
            prefix,
            namespace,
            before,
        })?;
        Ok(())
    }

    /// The place, if a declaration of the prefix is there.
    fn checked(&self, place: Option<usize>, prefix: &[u8]) -> Option<usize>
        ensures { result ≡ checked_place self.now.declared.items prefix.now place }
    {
        let place = place?;
        match self.declared.get(place) {
            Some(declaration) if declaration.prefix == prefix => Some(place),
            _ => None,
        }
    }

    /// Takes out the declarations of the innermost element, which is closed.
    pub(crate) fn leave(&mut self)
        ensures { (element : Open) (opened : List Open) → AreScopesOf (element ∷ opened) self.old
            → AreScopesOf opened self.new }
    {
        self.depth = self.depth.saturating_sub(1);
        while let Some(declaration) = self.take_out() {
            self.restore(declaration);
        }
    }

    /// Takes out the last declaration of the element inside `depth` elements. `None` if no more of them are left.
    fn take_out(&mut self) -> Option<Declaration<'a>>
        ensures { IsTakenOut self.old result self.new }
    {
        if self.declares() {
            self.declared.pop()
        } else {
            None
        }
    }

    /// Whether the last declaration is one of the element inside `depth` elements.
    fn declares(&self) -> bool
        ensures { result ≡ is_first self.now.depth (reverse self.now.declared.items) }
    {
        match self.declared.as_slice().split_last() {
            Some((last, _)) => last.outer == self.depth,
            None => false,
        }
    }

    /// Gives the prefix of a declaration that was taken out the place that it had before.
    fn restore(&mut self, declaration: Declaration<'a>)
        ensures kept { self.new ≡ record self.old { places = self.new.places } }
        ensures restored { IsSome (place_of self.old declaration.entry.prefix.now)
            → (prefix : List ℕ)
            → place_of self.new prefix ≡ place_before declaration.entry (place_of self.old) prefix }
    {
        if let Some(place) = declaration.before {
            // The prefix has an entry, so the map needs no memory for it.
            let _ = self.places.insert(key(declaration.prefix), place);
        }
    }

    /// The namespace of a prefix. `None` if the prefix isn't set.
    pub(crate) fn find(&self, prefix: &'a [u8]) -> Option<Namespace>
        ensures { (opened : List Open) → AreScopesOf opened self.now
            → result ≡ option_map kind_of (namespace_of (scope_of opened) prefix.now) }
    {
        self.declared_namespace(prefix).or(outer_namespace(prefix))
    }

    /// The namespace of a prefix that an open element declares.
    fn declared_namespace(&self, prefix: &'a [u8]) -> Option<Namespace>
        ensures { AreIndexed self.now
            → result ≡ found_in (reverse self.now.declared.items) prefix.now }
    {
        let place = self.places.get(&key(prefix)).copied();
        let place = self.checked(place, prefix)?;
        Some(self.declared.get(place)?.namespace)
    }
}
