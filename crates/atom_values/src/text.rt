ghost use Rattle.std.specs.Prelude.{◌≡◌, ℕ, ◌<◌, ◌≤◌, ◌*◌, ◌++◌, [], ◌∷◌, length, OnOk, OnErr, IfOk, IfErr, MatchOption, position, slice_index, nat_eq};
ghost use Rattle.std.specs.List.{list_all, position_or_len};
ghost use Rattle.std.specs.Cmp.{partial_equiv_from_equiv};
ghost use Rattle.std.specs.Cmp.Lexicographic.{nat_list_eq_equiv, pointwise};
ghost use Rattle.atom_values.specs.Ascii.{ampersand};
ghost use Rattle.atom_values.specs.Escape.{escaped, escaped_byte, escaped_limit, may_escape, IsNotWritten, IsReadBack};
ghost use Rattle.atom_values.specs.XmlText.{IsAtomText, IsXmlText, IsLongestXmlPrefix, is_plain, is_xml_char};

use crate::copies::Copies;
use crate::memory::NoMemory;
use std::alloc::{AllocError, Global};
use std::error::Error;
use std::fmt;
use std::marker::Model;

/// The greatest number of bytes of a feed's text.
pub const MAX_TEXT: usize = 65_536;

/// A text of a feed, which an XML document can contain. Keeps that it is UTF-8 of XML characters (XML 1.0,
/// production 2) with at most `MAX_TEXT` bytes.
#[derive(Debug, Drop)]
pub struct AtomText {
    bytes: Vec<u8>,
}

impl Model for AtomText {
    ghost use Rattle.std.specs.Prelude.{ℕ, List};

    ghost Value = { List ℕ };

    ghost use Rattle.atom_values.specs.XmlText.{IsAtomText};

    ghost view = { λ t. t.bytes.items };

    ghost invariant = { λ t. IsAtomText t.bytes.items };
}

/// Why `AtomText::of` refused bytes.
#[derive(Clone, Copy, Debug, PartialEq, Eq)]
pub enum TextFault {
    /// There are more than `MAX_TEXT` bytes. `length` is their number.
    TooLong { length: usize },
    /// The bytes before `at` are UTF-8 of XML characters, and no XML character begins at `at`.
    NotXmlChar { at: usize },
    /// The copy of the bytes needed memory, and none was left.
    NoMemory,
}

impl fmt::Display for TextFault {
    fn fmt<W: fmt::Write>(&self, f: &mut fmt::Formatter<W>) -> fmt::Result {
        match self {
            TextFault::TooLong { length } => {
                write!(
                    f,
                    "the text has {length} bytes, and the limit is {MAX_TEXT}"
                )
            }
            TextFault::NotXmlChar { at } => write!(f, "no XML character begins at byte {at}"),
            TextFault::NoMemory => write!(f, "out of memory"),
        }
    }
}

impl Error for TextFault {}

impl From<AllocError> for TextFault {
    ghost use Rattle.std.specs.Prelude.{◌≡◌};
    ghost use Rattle.atom_values.specs.declared.text.TextFault.TheVariants.{NoMemory};

    ghost from_gives = { λ _ fault. fault ≡ NoMemory };

    fn from(_error: AllocError) -> TextFault {
        TextFault::NoMemory
    }
}

/// Whether XML text may contain the character (XML 1.0, production 2).
pub fn is_xml_char(c: char) -> bool
    ensures { result ≡ is_xml_char c }
{
    matches!(
        c,
        '\t' | '\n' | '\r' | '\u{20}'..='\u{D7FF}' | '\u{E000}'..='\u{FFFD}' | '\u{10000}'..
    )
}

/// Whether the byte is ASCII and an XML character.
fn is_plain(byte: u8) -> bool
    ensures { result ≡ is_plain byte }
{
    matches!(byte, b'\t' | b'\n' | b'\r' | 0x20..=0x7F)
}

/// Whether all bytes are ASCII and XML characters.
fn are_plain(bytes: &[u8]) -> bool
    ensures { result ≡ list_all is_plain bytes.now }
{
    bytes.iter().all(|byte| is_plain(*byte))
}

/// The offset of the first sequence that is no XML character in UTF-8. `None` if there is none.
fn first_fault(bytes: &[u8]) -> Option<usize>
    ensures { MatchOption result (IsXmlText bytes.now) (IsLongestXmlPrefix bytes.now) }
{
    // Most texts are plain, and need no look at their characters.
    if are_plain(bytes) {
        return None;
    }
    let chunk = bytes.utf8_chunks().next()?;
    let text = chunk.valid();
    match text.find(|c: char| !is_xml_char(c)) {
        Some(at) => Some(at),
        None if chunk.invalid().is_empty() => None,
        None => Some(text.len()),
    }
}

impl AtomText {
    ghost use Rattle.atom_values.specs.XmlText.{IsTextFault};

    /// The text with these bytes. `TooLong` if there are more than `MAX_TEXT` bytes, valid or not; else
    /// `NotXmlChar` if they aren't UTF-8 (RFC 3629) of XML characters; `NoMemory` if there is no memory for their copy.
    pub fn of(alloc: Global, bytes: &[u8]) -> Result<AtomText, TextFault>
        ensures text { IfOk result (λ text. text ≡ bytes.now) }
        ensures taken { OnOk result (IsAtomText bytes.now) }
        ensures refused { IfErr result (IsTextFault bytes.now) }
    {
        if bytes.len() > MAX_TEXT {
            return Err(TextFault::TooLong {
                length: bytes.len(),
            });
        }
        if let Some(at) = first_fault(bytes) {
            return Err(TextFault::NotXmlChar { at });
        }
        Ok(AtomText {
            bytes: Vec::from_slice(alloc, bytes)?,
        })
    }

    /// The empty text. Takes no memory.
    pub fn empty(alloc: Global) -> AtomText
        ensures { result ≡ [] }
    {
        AtomText {
            bytes: Vec::new(alloc),
        }
    }

    /// The text with these bytes, without a copy, for a reader that has already made one. `None` if they are more than
    /// 65,536, or no XML text in UTF-8.
    pub fn from_vec(bytes: Vec<u8>) -> Option<AtomText>
        ensures { MatchOption result (¬ (IsAtomText bytes.items))
            (λ text. (text ≡ bytes.items) × IsAtomText bytes.items) }
    {
        if MAX_TEXT < bytes.len() {
            return None;
        }
        match first_fault(bytes.as_slice()) {
            Some(_) => None,
            None => Some(AtomText { bytes }),
        }
    }

    /// The allocator of the text's memory.
    pub(crate) fn allocator(&self) -> Global {
        *self.bytes.allocator()
    }

    /// The bytes of the text.
    pub fn bytes(&self) -> &[u8]
        ensures bytes { result.now ≡ self.now }
        ensures rules { IsAtomText self.now }
    {
        self.bytes.as_slice()
    }
}

impl PartialEq for AtomText {
    ghost eq = { pointwise nat_eq };

    ghost laws = { partial_equiv_from_equiv nat_list_eq_equiv };

    fn eq(&self, other: &AtomText) -> bool {
        self.bytes() == other.bytes()
    }
}

impl Eq for AtomText {
    ghost laws = { nat_list_eq_equiv };
}

impl Copies for AtomText {
    ghost rules = { IsAtomText };

    fn copy(&self, alloc: Global) -> Result<AtomText, NoMemory> {
        Ok(AtomText {
            bytes: Vec::from_slice(alloc, self.bytes())?,
        })
    }
}

/// The type of a text construct (RFC 4287 section 3.1.1).
#[derive(Clone, Copy, Debug, PartialEq, Eq)]
pub enum TextKind {
    /// `type="text"`: plain text.
    Plain,
    /// `type="html"`: HTML markup.
    Html,
}

/// A title, a summary, content or a rights text: a text construct (RFC 4287 section 3.1). Keeps the text, unescaped.
#[derive(Debug, Drop, PartialEq, Eq)]
pub struct Text {
    pub kind: TextKind,
    pub value: AtomText,
}

impl Copies for Text {
    ghost use Rattle.atom_values.specs.Entry.{IsText};

    ghost rules = { IsText };

    fn copy(&self, alloc: Global) -> Result<Text, NoMemory> {
        Ok(Text {
            kind: self.kind,
            value: self.value.copy(alloc)?,
        })
    }
}

/// Whether the byte is written as a reference in an attribute, and so perhaps in content too. Most bytes of a text
/// aren't, and this test takes a fraction of the time of `escape_of`.
fn may_escape(byte: u8) -> bool
    ensures { result ≡ may_escape byte }
{
    matches!(byte, b'&' | b'<' | b'>' | b'\r' | b'"' | b'\t' | b'\n')
}

/// The XML reference that a byte of a text is written as. `None` if the byte is written as itself.
fn escape_of(byte: u8, quoted: bool) -> Option<&'static str>
    ensures { MatchOption result (escaped_byte quoted byte ≡ byte ∷ [])
        (λ written. (written.now ≡ escaped_byte quoted byte) × (slice_index written.now 0 ≡ ampersand)) }
{
    match byte {
        b'&' => Some("&amp;"),
        b'<' => Some("&lt;"),
        b'>' => Some("&gt;"),
        b'\r' => Some("&#13;"),
        b'"' if quoted => Some("&quot;"),
        b'\t' if quoted => Some("&#9;"),
        b'\n' if quoted => Some("&#10;"),
        _ => None,
    }
}

/// Appends the text in its escaped form (XML 1.0, section 2.4): for content, or for an attribute value if `quoted`.
/// Line ends and white space that an XML parser would change (sections 2.11 and 3.3.3) are written as references.
/// `NoMemory` if `out` can't grow, which leaves `out` unchanged.
pub fn escape_into(out: &mut Vec<u8>, text: &AtomText, quoted: bool) -> Result<(), NoMemory>
    ensures ok { OnOk result (out.new.items ≡ out.old.items ++ escaped quoted text.now) }
    ensures err { OnErr result (out.new.items ≡ out.old.items) }
    ensures bound { length (escaped quoted text.now) ≤ escaped_limit }
    ensures rules { IsAtomText text.now }
{
    out.reserve(escaped_len(text, quoted))?;
    let bytes = text.bytes();
    let mut copied = 0;
    for (at, byte) in bytes.iter().enumerate() {
        if !may_escape(*byte) {
            continue;
        }
        if let Some(escape) = escape_of(*byte, quoted) {
            out.extend_from_slice(&bytes[copied..at])?;
            out.extend_from_slice(escape.as_bytes())?;
            copied = at + 1;
        }
    }
    out.extend_from_slice(&bytes[copied..])?;
    Ok(())
}

/// The number of bytes that `escape_into` appends. Takes no memory.
pub fn escaped_len(text: &AtomText, quoted: bool) -> usize
    ensures length { result ≡ length (escaped quoted text.now) }
    ensures bound { result ≤ escaped_limit }
    ensures rules { IsAtomText text.now }
{
    let mut total = 0;
    for byte in text.bytes() {
        total += written_len(*byte, quoted);
    }
    total
}

/// The number of bytes that the byte is written in.
fn written_len(byte: u8, quoted: bool) -> usize
    ensures { result ≡ length (escaped_byte quoted byte) }
{
    if may_escape(byte) {
        escape_of(byte, quoted).map_or(1, str::len)
    } else {
        1
    }
}

/// The greatest number of bytes of an escaped text, since each byte is written in at most six.
const MAX_ESCAPED: usize = 6 * MAX_TEXT;

/// The bytes that are escaped. The last three are escaped in an attribute only.
const ESCAPED: [u8; 7] = [b'&', b'<', b'>', b'\r', b'"', b'\t', b'\n'];

/// The rest of the written bytes after this byte's reference. `None` if they don't begin with it.
fn strip_escape(written: &[u8], byte: u8, quoted: bool) -> Option<&[u8]>
    requires { slice_index written.now 0 ≡ ampersand }
    ensures { MatchOption result (IsNotWritten quoted written.now byte)
        (λ rest. escaped_byte quoted byte ++ rest.now ≡ written.now) }
{
    written.strip_prefix(escape_of(byte, quoted)?.as_bytes())
}

/// The byte whose written form the bytes begin with, and the rest after it. `None` if they begin with no byte's written
/// form.
fn read_byte(written: &[u8], quoted: bool) -> Option<(u8, &[u8])>
    ensures { MatchOption result ((byte : ℕ) → IsNotWritten quoted written.now byte)
        (λ read. escaped_byte quoted read.0 ++ read.1.now ≡ written.now) }
{
    let (first, rest) = written.split_first()?;
    if *first != b'&' {
        return match escape_of(*first, quoted) {
            Some(_) => None,
            None => Some((*first, rest)),
        };
    }
    for byte in ESCAPED {
        if let Some(rest) = strip_escape(written, byte, quoted) {
            return Some((byte, rest));
        }
    }
    None
}

/// The text whose escaped form these bytes are: in content, or in an attribute value if `quoted`. `None` exactly if
/// `escape_into` writes these bytes for no text, so only the references that it writes are read. `NoMemory` if there is
/// no memory for the text.
pub fn unescape(alloc: Global, written: &[u8], quoted: bool) -> Result<Option<AtomText>, NoMemory>
    ensures { IfOk result (IsReadBack quoted written.now) }
{
    // No text has a longer escaped form, and the buffer stays within this size.
    if written.len() > MAX_ESCAPED {
        return Ok(None);
    }
    let mut bytes = Vec::with_capacity(alloc, written.len())?;
    let mut rest = written;
    loop {
        let (plain, behind) = rest.split_at(plain_len(rest));
        bytes.extend_from_slice(plain)?;
        if behind.is_empty() {
            return Ok(AtomText::from_vec(bytes));
        }
        let Some((byte, tail)) = read_byte(behind, quoted) else {
            return Ok(None);
        };
        bytes.push(byte)?;
        rest = tail;
    }
}

/// The number of bytes before the first one that may be escaped.
fn plain_len(text: &[u8]) -> usize
    ensures { result ≡ position_or_len may_escape text.now }
{
    match first_escape(text) {
        Some(at) => at,
        None => text.len(),
    }
}

/// The index of the first byte that may be escaped.
fn first_escape(text: &[u8]) -> Option<usize>
    ensures { result ≡ position may_escape text.now }
{
    text.iter().position(|byte| may_escape(*byte))
}
