ghost use Rattle.xml_tokens.specs.Reading.{ReadsDeclaration, ReadsEncoding, an_encoding, encoding_name};
ghost use Rattle.xml_tokens.specs.Reading.{behind_encoding, behind_version, is_utf8, lapse_of};
ghost use Rattle.xml_tokens.specs.Tokens.{IsQuote, is_encoding_name, is_utf8_name};
ghost use Rattle.std.specs.Prelude.{◌≡◌, ◌||◌, ◌==◌, ◌++◌, Some, List, ℕ, IsTrue, true};
ghost use Rattle.std.specs.List.{list_all};
ghost use Rattle.std.specs.Char.{is_ascii_alphanumeric};
ghost use Rattle.std.specs.Str.{str_eq_ignore_ascii_case};
ghost use Rattle.atom_values.specs.Ascii.{minus, point, underscore};
ghost use Rattle.xml_tokens.specs.Reading.{Reads, a_version, a_standalone, yes_or_no, declaration_end};

use crate::cursor::{Cursor, Lapse};

/// The names of the encodings whose texts are UTF-8, in lower case.
const ENCODINGS: [&[u8]; 2] = [b"utf-8", b"us-ascii"];

/// The encoding that a declaration names.
#[derive(Clone, Copy)]
pub(crate) enum Encoding {
    /// None, or one whose texts are UTF-8.
    Utf8,
    /// Another encoding.
    Foreign,
}

/// Whether the byte may stand in the name of an encoding after its first letter (XML 1.0, production 81).
fn continues_encoding(byte: u8) -> bool
    ensures { result ≡
        (is_ascii_alphanumeric byte || (byte == point) || (byte == underscore) || (byte == minus)) }
{
    byte.is_ascii_alphanumeric() || byte == b'.' || byte == b'_' || byte == b'-'
}

/// Whether the bytes may stand in the name of an encoding after its first letter.
fn continue_encoding(bytes: &[u8]) -> bool
    ensures { result ≡ list_all
        (λ b. is_ascii_alphanumeric b || (b == point) || (b == underscore) || (b == minus)) bytes.now }
{
    bytes.iter().all(|byte| continues_encoding(*byte))
}

/// Whether this is the name of an encoding (XML 1.0, production 81).
fn is_encoding_name(name: &[u8]) -> bool
    ensures { result ≡ is_encoding_name name.now }
{
    match name.split_first() {
        Some((first, rest)) => first.is_ascii_alphabetic() && continue_encoding(rest),
        None => false,
    }
}

/// Whether the name is that of an encoding whose texts are UTF-8.
fn is_utf8_name(name: &[u8]) -> bool
    ensures { result ≡ is_utf8_name (Some name.now) }
{
    ENCODINGS
        .iter()
        .any(|encoding| name.eq_ignore_ascii_case(encoding))
}

/// Whether `whole` begins with `front`, in any case.
fn begins_in_any_case(front: &[u8], whole: &[u8]) -> bool
    ensures some { result ≡ true
        → (more : List ℕ) × IsTrue (str_eq_ignore_ascii_case (front.now ++ more) whole.now) }
    ensures none { (more : List ℕ) → IsTrue (str_eq_ignore_ascii_case (front.now ++ more) whole.now)
        → result ≡ true }
{
    match whole.get(..front.len()) {
        Some(begin) => front.eq_ignore_ascii_case(begin),
        None => false,
    }
}

/// Whether the name of an encoding whose texts are UTF-8 begins with `front`, in any case.
fn begins_utf8_name(front: &[u8]) -> bool
    ensures some { result ≡ true → (more : List ℕ) × IsTrue (is_utf8_name (Some (front.now ++ more))) }
    ensures none { (more : List ℕ) → IsTrue (is_utf8_name (Some (front.now ++ more))) → result ≡ true }
{
    begins_in_any_case(front, b"utf-8") || begins_in_any_case(front, b"us-ascii")
}

/// The lapse of a declaration of `encoding`. No continuation helps a declaration of a foreign encoding.
fn end_lapse(encoding: Encoding, lapse: Lapse) -> Lapse
    ensures { result ≡ lapse_of encoding lapse }
{
    match (encoding, lapse) {
        (Encoding::Foreign, Lapse::Cut) => Lapse::Broken,
        (_, lapse) => lapse,
    }
}

impl Cursor<'_> {
    /// Reads the declaration (XML 1.0, production 23). A declaration of a foreign encoding is never `Cut`, since
    /// no continuation helps it.
    pub(crate) fn declaration(&mut self) -> Result<Encoding, Lapse>
        ensures { ReadsDeclaration self.old.rest.now result self.new.rest.now }
    {
        self.literal(b"<?xml")?;
        self.gap()?;
        self.version()?;
        let spaced = self.spaces();
        self.behind_version(spaced)
    }

    /// Reads the rest of a declaration after its version. `spaced` says whether white space was before it.
    fn behind_version(&mut self, spaced: bool) -> Result<Encoding, Lapse>
        ensures { ReadsEncoding (behind_version spaced) self.old.rest.now result self.new.rest.now }
    {
        if spaced && self.at(b"e") {
            let encoding = self.encoding()?;
            return self.behind_encoding(encoding);
        }
        self.declaration_end(spaced)?;
        Ok(Encoding::Utf8)
    }

    /// Reads the rest of a declaration after its encoding, which is `encoding`.
    fn behind_encoding(&mut self, encoding: Encoding) -> Result<Encoding, Lapse>
        ensures { ReadsEncoding (behind_encoding (is_utf8 encoding)) self.old.rest.now result
            self.new.rest.now }
    {
        let spaced = self.spaces();
        match self.declaration_end(spaced) {
            Ok(()) => Ok(encoding),
            Err(lapse) => Err(end_lapse(encoding, lapse)),
        }
    }

    /// Reads `version` and its value.
    fn version(&mut self) -> Result<(), Lapse>
        ensures { Reads a_version self.old.rest.now result self.new.rest.now }
    {
        self.literal(b"version")?;
        self.equals()?;
        let quote = self.quote()?;
        self.literal(b"1.0")?;
        self.literal(&[quote])
    }

    /// Reads `encoding` and its value.
    fn encoding(&mut self) -> Result<Encoding, Lapse>
        ensures { ReadsEncoding an_encoding self.old.rest.now result self.new.rest.now }
    {
        self.literal(b"encoding")?;
        self.equals()?;
        let quote = self.quote()?;
        self.encoding_name(quote)
    }

    /// Reads the name of an encoding up to its quote and over it.
    fn encoding_name(&mut self, quote: u8) -> Result<Encoding, Lapse>
        requires { IsQuote quote }
        ensures { ReadsEncoding (encoding_name quote) self.old.rest.now result self.new.rest.now }
    {
        let name = self.before(quote, quote);
        if self.rest.is_empty() {
            return if begins_utf8_name(name) {
                Err(Lapse::Cut)
            } else {
                Err(Lapse::Broken)
            };
        }
        self.take(1);
        if !is_encoding_name(name) {
            Err(Lapse::Broken)
        } else if is_utf8_name(name) {
            Ok(Encoding::Utf8)
        } else {
            Ok(Encoding::Foreign)
        }
    }

    /// Reads `standalone` and its value (XML 1.0, production 32).
    fn standalone(&mut self) -> Result<(), Lapse>
        ensures { Reads a_standalone self.old.rest.now result self.new.rest.now }
    {
        self.literal(b"standalone")?;
        self.equals()?;
        let quote = self.quote()?;
        self.yes_or_no()?;
        self.literal(&[quote])
    }

    /// Reads `yes` or `no`.
    fn yes_or_no(&mut self) -> Result<(), Lapse>
        ensures { Reads yes_or_no self.old.rest.now result self.new.rest.now }
    {
        if self.at(b"y") {
            return self.literal(b"yes");
        }
        self.literal(b"no")
    }

    /// Reads the end of a declaration, with `standalone` before it if it is there. `spaced` says whether white
    /// space was before it.
    fn declaration_end(&mut self, spaced: bool) -> Result<(), Lapse>
        ensures { Reads (declaration_end spaced) self.old.rest.now result self.new.rest.now }
    {
        if spaced && self.at(b"s") {
            self.standalone()?;
            self.spaces();
            return self.literal(b"?>");
        }
        self.literal(b"?>")
    }
}
