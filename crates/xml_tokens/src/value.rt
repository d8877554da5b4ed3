ghost use Rattle.std.specs.Prelude.{◌≡◌, ◌≤◌, ℕ, List, ◌++◌, length, true, encode_utf8, IfOk, OnOk, not, position};
ghost use Rattle.xml_tokens.specs.Characters.{lines, lines_after};
ghost use Rattle.xml_tokens.specs.Tokens.{IsValue};
ghost use Rattle.xml_tokens.specs.Reading.{is_verbatim};

use crate::cursor::{Cursor, first};
use atom_values::NoMemory;
use std::alloc::Global;

/// The text after a CR, without the LF of the same line end.
fn behind_line_end(text: &[u8]) -> &[u8]
    ensures read { lines result.now ≡ lines_after true text.now }
    ensures shorter { length result.now ≤ length text.now }
{
    match text.strip_prefix(b"\n") {
        Some(tail) => tail,
        None => text,
    }
}

/// Appends characters of content as they are read: CR LF, and CR alone, as LF (XML 1.0 section 2.11).
pub(crate) fn push_lines(out: &mut Vec<u8>, written: &[u8]) -> Result<(), NoMemory>
    ensures { OnOk result (out.new.items ≡ out.old.items ++ lines written.now) }
{
    let mut rest = written;
    while let Some(at) = first(rest, b'\r') {
        out.extend_from_slice(&rest[..at])?;
        out.push(b'\n')?;
        rest = behind_line_end(&rest[at + 1..]);
    }
    out.extend_from_slice(rest)?;
    Ok(())
}

/// Appends a character in UTF-8.
pub(crate) fn push_character(out: &mut Vec<u8>, character: char) -> Result<(), NoMemory>
    ensures { OnOk result (out.new.items ≡ out.old.items ++ encode_utf8 character) }
{
    let mut room = [0; 4];
    let written = character.encode_utf8(&mut room);
    out.extend_from_slice(written.as_bytes())?;
    Ok(())
}

/// Whether a byte of a value is read as it is written, and begins no reference.
fn is_verbatim(byte: u8) -> bool
    ensures { result ≡ is_verbatim byte }
{
    byte > b'\r' && byte != b'&'
}

/// The index of the first byte of a value that may not be read as it is written.
fn end_of_verbatim(written: &[u8]) -> Option<usize>
    ensures { result ≡ position (λ b. not (is_verbatim b)) written.now }
{
    written.iter().position(|byte| !is_verbatim(*byte))
}

/// The value of an attribute, from its text between the quotes (XML 1.0 section 3.3.3). References become their
/// characters. Each line end, tab and LF becomes a space.
pub(crate) fn value(alloc: Global, written: &[u8]) -> Result<Vec<u8>, NoMemory>
    ensures { IfOk result (λ out. (q : ℕ) (value : List ℕ) → IsValue q value written.now
        → out.items ≡ value) }
{
    let mut out = Vec::with_capacity(alloc, written.len())?;
    let mut cursor = Cursor { rest: written };
    // Most values are read as they are written.
    let end = end_of_verbatim(written).unwrap_or(written.len());
    out.extend_from_slice(cursor.take(end))?;
    while let Some((byte, tail)) = cursor.rest.split_first() {
        match *byte {
            b'&' => match cursor.reference() {
                Ok(character) => push_character(&mut out, character)?,
                // The references were checked when the tag was read.
                Err(_) => return Err(NoMemory),
            },
            b'\r' => {
                out.push(b' ')?;
                cursor.rest = behind_line_end(tail);
            }
            b'\t' | b'\n' => {
                out.push(b' ')?;
                cursor.rest = tail;
            }
            _ => {
                out.push(*byte)?;
                cursor.rest = tail;
            }
        }
    }
    Ok(out)
}
