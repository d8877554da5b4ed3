ghost use Rattle.std.specs.Prelude.{◌≡◌, ◌≢◌, ◌⊎◌, ℕ, ◌+◌, ◌-◌, ◌^◌, ◌<◌, ◌≤◌, List, [], ◌∷◌, ◌++◌, length, take, drop, false, Ok, Some, None};
ghost use Rattle.std.specs.Prelude.{IfOk, MatchResult, OnOk, IsSome, IsTrue, option_map};
ghost use Rattle.atom_values.specs.XmlText.{IsXmlText};
ghost use Rattle.atom_values.specs.Space.{trimmed};
ghost use Rattle.xml_tokens.specs.Characters.{IsName};
ghost use Rattle.xml_tokens.specs.Names.{app, atom, tombstones};
ghost use Rattle.xml_tokens.specs.Children.{same_name};
ghost use Rattle.xml_tokens.specs.Tree.{Element as TreeElement, mark_of};
ghost use Rattle.xml_tokens.specs.Reading.{IsTagOnly, IsTagTo, IsTokenRead};
ghost use Rattle.xml_tokens.specs.declared.token.Context.{Context as Spot};
ghost use Rattle.xml_tokens.specs.Progress.{IsNotUtf8Fault, IsOpened};
ghost use Rattle.xml_tokens.specs.Progress.{Point, IsAt, IsAtText, IsBehindXml, IsReading, IsNext, IsOver, IsUnfinished};
ghost use Rattle.xml_tokens.specs.Progress.{IsBegun, IsEventOf, IsPlaceOf, IsClosed, IsDepthAfter, depth_of, left_of, first_point};
ghost use Rattle.xml_tokens.specs.Progress.{IsAttributeFound, IsElementOf, IsDrained, IsContentRead, IsSkipped, IsWholeRead, event_text, admission, fault_of};
ghost use Rattle.xml_tokens.specs.Progress.{added_inner, added_text, emptiness, inner_depth, later_stage, said_text};
ghost use Rattle.xml_tokens.specs.declared.fault.TokenFault.{TokenFault};
ghost use Rattle.xml_tokens.specs.declared.fault.TokenWhy.{TokenWhy};
ghost use Rattle.xml_tokens.specs.declared.elements.Event.{Event};

use crate::characters::xml_length;
use crate::cursor::{Cursor, Lapse};
use crate::declaration::Encoding;
use crate::fault::{TokenFault, TokenWhy};
use crate::scopes::{Namespace, Scopes, split_name};
use crate::tag::{Attribute, Tag, TagEnd};
use crate::token::{Context, Token};
use crate::value::{push_character, push_lines, value};
use atom_values::{NoMemory, trimmed};
use std::alloc::Global;

/// The byte order mark that may stand before the text (Unicode section 23.8).
const MARK: &[u8] = b"\xEF\xBB\xBF";

/// An element, as its tag states it.
#[derive(Drop)]
pub struct Element<'a> {
    /// The offset of the tag's `<` in the input.
    pub at: usize,
    /// The namespace of the name.
    pub namespace: Namespace,
    /// The name without its prefix.
    pub local: &'a [u8],
    attributes: Vec<Attribute<'a>>,
}

impl Element<'_> {
    /// Whether this is Atom's element of this name.
    pub fn is_atom(&self, local: &[u8]) -> bool
        ensures { (element : TreeElement) → IsElementOf element self.now
            → result ≡ same_name element.name (atom local.now) }
    {
        match self.namespace {
            Namespace::Atom => self.local == local,
            Namespace::App | Namespace::Tombstones | Namespace::Other => false,
        }
    }

    /// Whether this is the element of this name of the Atom Publishing Protocol.
    pub fn is_app(&self, local: &[u8]) -> bool
        ensures { (element : TreeElement) → IsElementOf element self.now
            → result ≡ same_name element.name (app local.now) }
    {
        match self.namespace {
            Namespace::App => self.local == local,
            Namespace::Atom | Namespace::Tombstones | Namespace::Other => false,
        }
    }

    /// Whether this is the element of this name of the deleted entries of Atom (RFC 6721).
    pub fn is_tombstone(&self, local: &[u8]) -> bool
        ensures { (element : TreeElement) → IsElementOf element self.now
            → result ≡ same_name element.name (tombstones local.now) }
    {
        match self.namespace {
            Namespace::Tombstones => self.local == local,
            Namespace::Atom | Namespace::App | Namespace::Other => false,
        }
    }

    /// The value of the attribute with this name and no prefix (XML 1.0 section 3.3.3). `None` if the element doesn't
    /// have it. `NoMemory` if memory runs out.
    pub fn attribute(&self, alloc: Global, name: &[u8]) -> Result<Option<Vec<u8>>, NoMemory>
        requires { IsName name.now }
        ensures { IfOk result
            (λ found. IsAttributeFound name.now self.now (option_map (λ v. v.items) found)) }
    {
        for attribute in &self.attributes {
            if attribute.name == name {
                return Ok(Some(value(alloc, attribute.written)?));
            }
        }
        Ok(None)
    }
}

/// Characters of an element's content.
#[derive(Clone, Copy)]
pub enum Said<'a> {
    /// As they are written, without a reference.
    Written(&'a [u8]),
    /// The character of a reference.
    Reference(char),
}

/// A part of a document's tree, in document order.
#[derive(Drop)]
pub enum Event<'a> {
    /// An element begins.
    Begin(Element<'a>),
    /// The innermost open element ends.
    End,
    /// Characters of the innermost open element.
    Said(Said<'a>),
}

/// The text of an element, and the first element in it.
#[derive(Drop)]
pub struct Content {
    /// The element's own characters, or all characters in it.
    pub text: Vec<u8>,
    /// The offset of the first element in it.
    pub inner: Option<usize>,
}

impl Content {
    /// The text without the white space at both ends.
    pub fn trimmed(&self) -> &[u8]
        ensures { result.now ≡ trimmed self.now.text.items }
    {
        trimmed(self.text.as_slice())
    }

    /// Adds an event inside the element. `depth` is the number of the elements that are open in it.
    fn add(&mut self, event: Event<'_>, depth: usize) -> Result<(), NoMemory>
        ensures text { OnOk result (self.new.text.items ≡ added_text depth event.entry self.old.text.items) }
        ensures inner { OnOk result (self.new.inner ≡ added_inner event.entry self.old.inner) }
    {
        match event {
            Event::Begin(element) => {
                self.inner = self.inner.or(Some(element.at));
                Ok(())
            }
            Event::Said(said) if depth == 0 => push_said(&mut self.text, said),
            Event::Said(_) | Event::End => Ok(()),
        }
    }
}

impl Content {
    /// Adds an event inside the element, with the characters of elements in it.
    fn add_whole(&mut self, event: Event<'_>) -> Result<(), NoMemory>
        ensures text { OnOk result (self.new.text.items ≡ self.old.text.items ++ event_text event.entry) }
        ensures inner { OnOk result (self.new.inner ≡ added_inner event.entry self.old.inner) }
    {
        match event {
            Event::Begin(element) => {
                self.inner = self.inner.or(Some(element.at));
                Ok(())
            }
            Event::Said(said) => push_said(&mut self.text, said),
            Event::End => Ok(()),
        }
    }
}

/// The text without the byte order mark.
fn without_mark(text: &[u8]) -> &[u8]
    ensures { result.now ≡ drop (length (mark_of text.now)) text.now }
{
    match text.strip_prefix(MARK) {
        Some(rest) => rest,
        None => text,
    }
}

/// The number of elements that are open in an element after an event in it, if `depth` were open before. `None` if
/// the event ends the element.
fn depth_after(event: &Event<'_>, depth: usize) -> Option<usize>
    requires { depth < 2 ^ 64 - 1 }
    ensures { result ≡ inner_depth event.now depth }
{
    match event {
        Event::Begin(_) => Some(depth + 1),
        Event::End => depth.checked_sub(1),
        Event::Said(_) => Some(depth),
    }
}

/// How far a document is read.
#[derive(Clone, Copy, PartialEq, Eq)]
enum Stage {
    /// Nothing is read.
    Start,
    /// The root isn't read.
    Prolog,
    /// The root is read or open.
    Root,
}

/// Reads the elements of a document, in document order. Begin with [`Elements::new`].
#[derive(Drop)]
pub struct Elements<'a> {
    alloc: Global,
    /// The greatest depth of an element. The root has depth 1.
    most: usize,
    cursor: Cursor<'a>,
    /// The offset of the text's end in the input. The text ends before the first character that isn't an XML
    /// character.
    end: usize,
    /// The length of the input.
    length: usize,
    stage: Stage,
    /// The names of the open elements as they are written, the innermost last.
    names: Vec<&'a [u8]>,
    scopes: Scopes<'a>,
    /// The last tag was that of an empty element, which is still open.
    empty: bool,
}

impl<'a> Elements<'a> {
    /// A reader of the document `bytes`, whose elements may be at most `most` deep. The root has depth 1.
    ///
    /// `NotUtf8` if the bytes aren't UTF-8 (RFC 3629). Every other refusal is that of a call that reads on. One pass
    /// checks the characters here, and a second one reads the tokens. It takes no memory.
    pub fn new(alloc: Global, most: usize, bytes: &'a [u8]) -> Result<Elements<'a>, TokenFault>
        requires { 1 ≤ most }
        ensures { MatchResult result (IsOpened most bytes.now) (IsNotUtf8Fault bytes.now) }
    {
        let xml_length = xml_length(bytes)?;
        Ok(Elements::of_text(alloc, most, bytes, xml_length))
    }

    /// A reader of `input`, whose longest prefix of XML characters has the length `xml_length`.
    fn of_text(alloc: Global, most: usize, input: &'a [u8], xml_length: usize) -> Elements<'a>
        requires within { xml_length ≤ length input.now }
        requires text { IsXmlText (take xml_length input.now) }
        requires behind { IsBehindXml (drop xml_length input.now) }
        requires most { 1 ≤ most }
        ensures at { IsAt result (first_point most input.now) }
        ensures told { result.empty ≡ false }
        ensures total { result.length ≡ length input.now }
        ensures depth { depth_of result ≡ 0 }
    {
        let text = &input[..xml_length];
        Elements {
            alloc,
            most,
            cursor: Cursor {
                rest: without_mark(text),
            },
            end: xml_length,
            length: input.len(),
            stage: Stage::Start,
            names: Vec::new(alloc),
            scopes: Scopes::new(alloc),
            empty: false,
        }
    }

    /// The next part of the tree. `None` at the end of a whole document.
    ///
    /// `NotRead` has the first token that isn't allowed where it is (XML 1.0, Namespaces in XML 1.0), and why: see
    /// [`TokenWhy`]. `NoMemory` if memory runs out. After an error nothing more is read. The other calls have the
    /// same errors.
    pub fn next(&mut self) -> Result<Option<Event<'a>>, TokenFault>
        requires { IsReading self.old }
        ensures read { IsNext self.old result self.new }
        ensures reading { OnOk result (IsReading self.new) }
        ensures depth { IfOk result (λ event. IsSome event
            → IsDepthAfter event (depth_of self.old) (depth_of self.new)) }
        ensures ended { result ≡ Ok None → IsOver self.new × (depth_of self.old ≡ 0) }
        ensures shorter { IfOk result (λ event. IsSome event → left_of self.new < left_of self.old) }
    {
        if self.empty {
            self.empty = false;
            return Ok(Some(self.close()));
        }
        while !self.is_over() {
            match self.step()? {
                Some(event) => return Ok(Some(event)),
                None => {}
            }
        }
        Ok(None)
    }

    /// Reads the rest of the document, so that a fault of any later token is found.
    pub fn drain(&mut self) -> Result<(), TokenFault>
        requires { IsReading self.old }
        ensures read { IsDrained self.old result self.new }
        ensures reading { OnOk result (IsReading self.new) }
        ensures over { OnOk result (IsOver self.new) }
    {
        while let Some(_event) = self.next()? {}
        Ok(())
    }

    /// Reads the rest of the innermost open element, and returns its own text and the first element in it.
    pub fn content(&mut self) -> Result<Content, TokenFault>
        requires reading { IsReading self.old }
        requires inside { 1 ≤ depth_of self.old }
        ensures read { IsContentRead self.old result self.new }
        ensures reading { OnOk result (IsReading self.new) }
        ensures depth { OnOk result (depth_of self.new + 1 ≡ depth_of self.old) }
        ensures shorter { OnOk result (left_of self.new < left_of self.old) }
    {
        let mut content = Content {
            text: Vec::new(self.alloc),
            inner: None,
        };
        let mut depth: usize = 0;
        while let Some(event) = self.next()? {
            let after = match depth_after(&event, depth) {
                Some(after) => after,
                None => return Ok(content),
            };
            content.add(event, depth)?;
            depth = after;
        }
        Ok(content)
    }

    /// Reads the rest of the innermost open element, and returns all characters in it, those of elements in it too,
    /// and the first element in it.
    pub fn whole_content(&mut self) -> Result<Content, TokenFault>
        requires reading { IsReading self.old }
        requires inside { 1 ≤ depth_of self.old }
        ensures read { IsWholeRead self.old result self.new }
        ensures reading { OnOk result (IsReading self.new) }
        ensures depth { OnOk result (depth_of self.new + 1 ≡ depth_of self.old) }
        ensures shorter { OnOk result (left_of self.new < left_of self.old) }
    {
        let mut content = Content {
            text: Vec::new(self.alloc),
            inner: None,
        };
        let mut depth: usize = 0;
        while let Some(event) = self.next()? {
            let after = match depth_after(&event, depth) {
                Some(after) => after,
                None => return Ok(content),
            };
            content.add_whole(event)?;
            depth = after;
        }
        Ok(content)
    }

    /// Reads over the rest of the innermost open element.
    pub fn skip(&mut self) -> Result<(), TokenFault>
        requires reading { IsReading self.old }
        requires inside { 1 ≤ depth_of self.old }
        ensures read { IsSkipped self.old result self.new }
        ensures reading { OnOk result (IsReading self.new) }
        ensures depth { OnOk result (depth_of self.new + 1 ≡ depth_of self.old) }
        ensures shorter { OnOk result (left_of self.new < left_of self.old) }
    {
        let mut depth: usize = 0;
        while let Some(event) = self.next()? {
            match depth_after(&event, depth) {
                Some(after) => depth = after,
                None => return Ok(()),
            }
        }
        Ok(())
    }

    /// Whether the document is whole and read to its end.
    fn is_over(&self) -> bool
        requires { self.now.empty ≡ false }
        ensures over { IsTrue result → IsOver self.now }
        ensures inside { IsTrue result → depth_of self.now ≡ 0 }
        ensures more { result ≡ false → IsUnfinished self.now }
    {
        self.stage == Stage::Root
            && self.names.is_empty()
            && self.cursor.rest.is_empty()
            && self.end == self.length
    }

    /// The place of the next token.
    fn place(&self) -> Context<'a>
        requires { self.now.empty ≡ false }
        ensures { (from : Point) → IsAt self.now from → IsPlaceOf result from.stage }
    {
        match self.names.last() {
            Some(name) => Context::Inside(name),
            None if self.stage == Stage::Start => Context::Start,
            None => Context::Outside,
        }
    }

    /// Reads a token, and returns its part of the tree if it has one.
    fn step(&mut self) -> Result<Option<Event<'a>>, TokenFault>
        requires reading { IsReading self.old }
        requires told { self.old.empty ≡ false }
        requires more { IsUnfinished self.old }
        ensures read { (from : Point) → IsAt self.old from
            → IsEventOf self.old.length [] from result self.new }
        ensures total { OnOk result (self.new.length ≡ self.old.length) }
        ensures depth { IfOk result (λ event. IsDepthAfter event (depth_of self.old) (depth_of self.new)) }
        ensures shorter { OnOk result (length self.new.cursor.rest.now < length self.old.cursor.rest.now) }
        ensures silent { result ≡ Ok None → self.new.empty ≡ false }
    {
        let start = self.cursor;
        let at = self.end - start.rest.len();
        if start.rest.is_empty() {
            return Err(self.fault(at, start, Lapse::Cut));
        }
        let place = self.place();
        match self.cursor.token(self.alloc, place) {
            Ok(token) => self.event(at, token),
            Err(lapse) => Err(self.fault(at, start, lapse)),
        }
    }

    /// The fault of a token that begins at offset `at` and can't be read.
    fn fault(&self, at: usize, start: Cursor<'_>, lapse: Lapse) -> TokenFault
        ensures { result ≡ fault_of self.now.end self.now.length at start.entry.rest.now lapse }
    {
        match lapse {
            Lapse::NoMemory => TokenFault::NoMemory,
            Lapse::Cut if self.end == self.length => broken(self.length),
            _ if start.at(b"<!DOCTYPE") => TokenFault::NotRead {
                at,
                why: TokenWhy::Doctype,
            },
            _ => broken(at),
        }
    }

    /// Adds a token at offset `at`, and returns its part of the tree if it has one.
    fn event(&mut self, at: usize, token: Token<'a>) -> Result<Option<Event<'a>>, TokenFault>
        requires { self.old.empty ≡ false }
        ensures read { (place : Spot) (before : List ℕ) (from : Point) → IsAtText self.old before from
            → IsPlaceOf place from.stage → IsTokenRead place before token.entry self.old.cursor.rest.now
            → IsXmlText self.old.cursor.rest.now → at ≡ from.at → before ≢ []
            → IsEventOf self.old.length [] from result self.new }
        ensures depth { (place : Spot) (before : List ℕ) (from : Point) → IsAtText self.old before from
            → IsPlaceOf place from.stage → IsTokenRead place before token.entry self.old.cursor.rest.now
            → IsXmlText self.old.cursor.rest.now
            → IfOk result (λ event. IsDepthAfter event (depth_of self.old) (depth_of self.new)) }
        ensures shorter { (place : Spot) (before : List ℕ)
            → IsTokenRead place before token.entry self.old.cursor.rest.now
            → OnOk result (length self.old.cursor.rest.now < length before) }
        ensures total { OnOk result (self.new.length ≡ self.old.length) }
        ensures cursor { OnOk result (self.new.cursor.rest.now ≡ self.old.cursor.rest.now) }
        ensures silent { result ≡ Ok None → self.new.empty ≡ false }
    {
        match token {
            Token::Declaration(Encoding::Foreign) => Err(TokenFault::NotRead {
                at,
                why: TokenWhy::NotUtf8,
            }),
            Token::Declaration(Encoding::Utf8) => Ok(self.silent()),
            Token::Silent => Ok(self.silent()),
            Token::Characters(run) => Ok(Some(Event::Said(Said::Written(run)))),
            Token::Section(run) => Ok(Some(Event::Said(Said::Written(run)))),
            Token::Reference(character) => Ok(Some(Event::Said(Said::Reference(character)))),
            Token::Tag(tag) => Ok(Some(self.begin(at, tag)?)),
            Token::EndTag => Ok(Some(self.close())),
        }
    }

    /// Notes a token that adds nothing to the tree.
    fn silent(&mut self) -> Option<Event<'a>>
        ensures none { result ≡ None }
        ensures stage { self.new ≡ record self.old { stage = later_stage self.old.stage } }
    {
        match self.stage {
            Stage::Start => self.stage = Stage::Prolog,
            Stage::Prolog | Stage::Root => {}
        }
        None
    }

    /// Refuses a tag at offset `at` that isn't allowed there whatever its prefix is. Also refuses a tag that the
    /// input cuts, unless only `>` is missing.
    fn admit(&self, at: usize, tag: &Tag<'_>) -> Result<(), TokenFault>
        ensures { result ≡ admission self.now at tag.now.end }
    {
        let is_cut = matches!(tag.end, TagEnd::Cut | TagEnd::CutAtSlash);
        let is_past_root = self.stage == Stage::Root && self.names.is_empty();
        if is_past_root || (is_cut && self.end < self.length) {
            return Err(broken(at));
        }
        if self.names.len() >= self.most {
            return Err(TokenFault::NotRead {
                at,
                why: TokenWhy::TooDeep,
            });
        }
        if tag.end == TagEnd::Cut {
            return Err(broken(self.length));
        }
        Ok(())
    }

    /// Opens the element of a tag at offset `at`.
    fn begin(&mut self, at: usize, tag: Tag<'a>) -> Result<Event<'a>, TokenFault>
        requires { self.old.empty ≡ false }
        ensures read { (place : Spot) (before : List ℕ) (from : Point) → IsAtText self.old before from
            → IsPlaceOf place from.stage → IsTagOnly before
            → IsTagTo tag.entry.end place before tag.entry self.old.cursor.rest.now
            → IsXmlText self.old.cursor.rest.now → at ≡ from.at → before ≢ []
            → IsBegun self.old.length from result self.new }
        ensures shorter { (place : Spot) (before : List ℕ)
            → IsTagTo tag.entry.end place before tag.entry self.old.cursor.rest.now
            → OnOk result (length self.old.cursor.rest.now < length before) }
        ensures total { OnOk result (self.new.length ≡ self.old.length) }
        ensures depth { IfOk result
            (λ event. IsDepthAfter (Some event) (depth_of self.old) (depth_of self.new)) }
        ensures cursor { OnOk result (self.new.cursor.rest.now ≡ self.old.cursor.rest.now) }
    {
        self.admit(at, &tag)?;
        self.scopes.declare(self.alloc, tag.attributes.as_slice())?;
        let (prefix, local) = split_name(tag.name);
        let Some(namespace) = self.scopes.find(prefix) else {
            return Err(broken(at));
        };
        let Some(is_empty) = emptiness(tag.end) else {
            return Err(broken(self.length));
        };
        self.push(tag.name)?;
        self.stage = Stage::Root;
        self.empty = is_empty;
        Ok(Event::Begin(Element {
            at,
            namespace,
            local,
            attributes: tag.attributes,
        }))
    }

    /// Keeps the name of an open element.
    fn push(&mut self, name: &'a [u8]) -> Result<(), NoMemory>
        ensures { OnOk result (self.new ≡ record self.old { names = self.new.names }
            × (self.new.names.items ≡ self.old.names.items ++ name.entry ∷ [])) }
    {
        self.names.push(name)?;
        Ok(())
    }

    /// Closes the innermost open element.
    fn close(&mut self) -> Event<'a>
        ensures end { result ≡ Event.End }
        ensures closed { IsClosed self.old self.new }
    {
        self.scopes.leave();
        // Nobody reads the name of a closed element.
        let _ = self.names.pop();
        Event::End
    }
}

/// The fault of a token that isn't allowed at offset `at`, or of an input that ends too early.
pub(crate) fn broken(at: usize) -> TokenFault
    ensures { result ≡ TokenFault.NotRead at TokenWhy.NotWellFormed }
{
    TokenFault::NotRead {
        at,
        why: TokenWhy::NotWellFormed,
    }
}

/// Whether a whole tag is that of an empty element. `None` if the text ends within the tag.
fn emptiness(end: TagEnd) -> Option<bool>
    ensures { result ≡ emptiness end }
{
    match end {
        TagEnd::Open => Some(false),
        TagEnd::Empty => Some(true),
        TagEnd::Cut | TagEnd::CutAtSlash => None,
    }
}

/// Appends characters of content as they are read.
fn push_said(text: &mut Vec<u8>, said: Said<'_>) -> Result<(), NoMemory>
    ensures { OnOk result (text.new.items ≡ text.old.items ++ said_text said.entry) }
{
    match said {
        Said::Written(run) => push_lines(text, run),
        Said::Reference(character) => push_character(text, character),
    }
}
