ghost use Rattle.std.specs.Prelude.{◌≡◌, ℕ, ◌≤◌, ◌++◌, ◌==◌, ◌||◌, not, position, length, min, IsTrue, MatchOption};
ghost use Rattle.std.specs.Prelude.{MatchResult, Ok, Err};
ghost use Rattle.atom_values.specs.Ascii.{ampersand, less_than};
ghost use Rattle.atom_values.specs.Space.{is_space};
ghost use Rattle.xml_tokens.specs.Reading.{close_bracket};
ghost use Rattle.xml_tokens.specs.Characters.{begins, lacks, begins_name, continues_name};
ghost use Rattle.xml_tokens.specs.Reading.{Reads, exactly, IsSpaceRead, whole_name, whole_qname, up_to_end};
ghost use Rattle.xml_tokens.specs.Reading.{one_quote};
ghost use Rattle.xml_tokens.specs.Reading.{equals_sign, IsCutBefore, IsFirstPlace, a_gap, IsPlainRun};

use atom_values::is_space;
use memchr::{memchr, memchr2, memchr3};

/// Why no token is read.
#[derive(Clone, Copy)]
pub(crate) enum Lapse {
    /// No continuation of the text begins with a token that is allowed there.
    Broken,
    /// The text ends within a token, and a continuation of the text could finish it.
    Cut,
    /// Out of memory.
    NoMemory,
}

/// Whether a name may begin with the byte. From U+80 on each character may stand in a name.
pub(crate) fn begins_name(byte: u8) -> bool
    ensures { result ≡ begins_name byte }
{
    byte.is_ascii_alphabetic() || byte == b'_' || byte >= 0x80
}

/// Whether the byte may stand in a name after its first character.
fn continues_name(byte: u8) -> bool
    ensures { result ≡ continues_name byte }
{
    begins_name(byte) || byte.is_ascii_digit() || byte == b'-' || byte == b'.'
}

/// The index of the first byte that isn't white space.
fn end_of_spaces(text: &[u8]) -> Option<usize>
    ensures { result ≡ position (λ b. not (is_space b)) text.now }
{
    text.iter().position(|byte| !is_space(*byte))
}

/// The index of the first byte that can't continue a name.
fn end_of_name(text: &[u8]) -> Option<usize>
    ensures { result ≡ position (λ b. not (continues_name b)) text.now }
{
    text.iter().position(|byte| !continues_name(*byte))
}

/// The index of the first byte that equals `byte`.
pub(crate) fn first(text: &[u8], byte: u8) -> Option<usize>
    ensures { result ≡ position (λ b. b == byte) text.now }
{
    memchr(byte, text)
}

/// The index of the first byte that equals `one` or `other`.
fn first_of(text: &[u8], one: u8, other: u8) -> Option<usize>
    ensures { result ≡ position (λ b. (b == one) || (b == other)) text.now }
{
    memchr2(one, other, text)
}

/// The index of the first byte that may end a run of characters of content: `<`, `&` or `]`.
fn end_of_plain(text: &[u8]) -> Option<usize>
    ensures { result ≡ position (λ b. (b == less_than) || (b == ampersand) || (b == close_bracket)) text.now }
{
    memchr3(b'<', b'&', b']', text)
}

/// The index of the first place where `pattern` begins.
pub(crate) fn find(text: &[u8], pattern: &[u8]) -> Option<usize>
    requires { 1 ≤ length pattern.now }
    ensures { MatchOption result (IsTrue (lacks pattern.now text.now)) (IsFirstPlace pattern.now text.now) }
{
    for at in 0..text.len() {
        if text[at..].starts_with(pattern) {
            return Some(at);
        }
    }
    None
}

/// The unread text, which has XML characters only (XML 1.0, production 2). Each method reads forward. After an
/// `Err` the position is unspecified.
#[derive(Clone, Copy)]
pub(crate) struct Cursor<'a> {
    pub(crate) rest: &'a [u8],
}

impl<'a> Cursor<'a> {
    /// Whether the unread text begins with `bytes`.
    pub(crate) fn at(&self, bytes: &[u8]) -> bool
        ensures { result ≡ begins bytes.now self.now.rest.now }
    {
        self.rest.starts_with(bytes)
    }

    /// Reads `count` bytes, or all that are left.
    pub(crate) fn take(&mut self, count: usize) -> &'a [u8]
        ensures split { self.old.rest.now ≡ result.now ++ self.new.rest.now }
        ensures length { length result.now ≡ min count (length self.old.rest.now) }
    {
        let (taken, rest) = self.rest.split_at(count.min(self.rest.len()));
        self.rest = rest;
        taken
    }

    /// Reads exactly `bytes`. After an `Err` the position is unchanged.
    pub(crate) fn literal(&mut self, bytes: &[u8]) -> Result<(), Lapse>
        ensures { Reads (exactly bytes.now) self.old.rest.now result self.new.rest.now }
    {
        match self.rest.strip_prefix(bytes) {
            Some(rest) => {
                self.rest = rest;
                Ok(())
            }
            None if bytes.starts_with(self.rest) => Err(Lapse::Cut),
            None => Err(Lapse::Broken),
        }
    }

    /// Reads white space, and returns whether there is any.
    pub(crate) fn spaces(&mut self) -> bool
        ensures { IsSpaceRead self.old.rest.now result self.new.rest.now }
    {
        let end = end_of_spaces(self.rest);
        let spaces = self.take(end.unwrap_or(self.rest.len()));
        !spaces.is_empty()
    }

    /// Reads white space of at least one character.
    pub(crate) fn gap(&mut self) -> Result<(), Lapse>
        ensures { Reads a_gap self.old.rest.now result self.new.rest.now }
    {
        if self.spaces() {
            return Ok(());
        }
        if self.rest.is_empty() {
            return Err(Lapse::Cut);
        }
        Err(Lapse::Broken)
    }

    /// Reads a name (Namespaces in XML 1.0, production 4).
    pub(crate) fn name(&mut self) -> Result<&'a [u8], Lapse>
        ensures { MatchResult result
            (λ name. Reads whole_name self.old.rest.now (Ok name.now) self.new.rest.now)
            (λ lapse. Reads whole_name self.old.rest.now (Err lapse) self.new.rest.now) }
    {
        match self.rest.first() {
            None => return Err(Lapse::Cut),
            Some(first) if !begins_name(*first) => return Err(Lapse::Broken),
            Some(_) => {}
        }
        let end = end_of_name(self.rest);
        Ok(self.take(end.unwrap_or(self.rest.len())))
    }

    /// Reads a qualified name (Namespaces in XML 1.0, production 7).
    pub(crate) fn qualified_name(&mut self) -> Result<&'a [u8], Lapse>
        ensures { MatchResult result
            (λ name. Reads whole_qname self.old.rest.now (Ok name.now) self.new.rest.now)
            (λ lapse. Reads whole_qname self.old.rest.now (Err lapse) self.new.rest.now) }
    {
        let start = self.rest;
        let mut length = self.name()?.len();
        if self.at(b":") {
            self.take(1);
            length += 1 + self.name()?.len();
        }
        Ok(&start[..length])
    }

    /// Reads up to the next `end` and over it, and returns the bytes before it.
    pub(crate) fn up_to(&mut self, end: &[u8]) -> Result<&'a [u8], Lapse>
        requires { 1 ≤ length end.now }
        ensures { MatchResult result
            (λ front. Reads (up_to_end end.now) self.old.rest.now (Ok front.now) self.new.rest.now)
            (λ lapse. Reads (up_to_end end.now) self.old.rest.now (Err lapse) self.new.rest.now) }
    {
        let Some(at) = find(self.rest, end) else {
            return Err(Lapse::Cut);
        };
        let front = self.take(at);
        self.literal(end)?;
        Ok(front)
    }

    /// Reads the quote that begins a value, and returns it.
    pub(crate) fn quote(&mut self) -> Result<u8, Lapse>
        ensures { Reads one_quote self.old.rest.now result self.new.rest.now }
    {
        match self.rest.first() {
            None => Err(Lapse::Cut),
            Some(quote) if matches!(*quote, b'"' | b'\'') => {
                let quote = *quote;
                self.take(1);
                Ok(quote)
            }
            Some(_) => Err(Lapse::Broken),
        }
    }

    /// Reads `=` with optional white space around it.
    pub(crate) fn equals(&mut self) -> Result<(), Lapse>
        ensures { Reads equals_sign self.old.rest.now result self.new.rest.now }
    {
        self.spaces();
        self.literal(b"=")?;
        self.spaces();
        Ok(())
    }

    /// Reads up to the first byte that equals `one` or `other`, or to the end.
    pub(crate) fn before(&mut self, one: u8, other: u8) -> &'a [u8]
        ensures { IsCutBefore (λ b. (b == one) || (b == other))
            self.old.rest.now result.now self.new.rest.now }
    {
        let end = first_of(self.rest, one, other);
        self.take(end.unwrap_or(self.rest.len()))
    }

    /// Reads up to the first `<`, `&` or `]`, or to the end.
    pub(crate) fn plain(&mut self) -> &'a [u8]
        ensures { IsPlainRun self.old.rest.now result.now self.new.rest.now }
    {
        let end = end_of_plain(self.rest);
        self.take(end.unwrap_or(self.rest.len()))
    }
}
