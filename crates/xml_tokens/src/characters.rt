ghost use Rattle.std.specs.Prelude.{◌≡◌, ◌≤◌, length, position, MatchResult};
ghost use Rattle.std.specs.List.{list_any};
ghost use Rattle.xml_tokens.specs.Characters.{IsCleanBefore, is_control, is_refused, is_suspect, allowed_length};
ghost use Rattle.xml_tokens.specs.Progress.{IsNotUtf8Fault, IsXmlLength};

use crate::fault::{TokenFault, TokenWhy};
use simdutf8::compat::from_utf8;

/// How many bytes are tested together for suspect ones.
const BLOCK: usize = 64;

/// The length of the longest prefix that has XML characters only (XML 1.0, production 2). `NotUtf8` if the bytes
/// aren't UTF-8.
pub(crate) fn xml_length(bytes: &[u8]) -> Result<usize, TokenFault>
    ensures { MatchResult result (IsXmlLength bytes.now) (IsNotUtf8Fault bytes.now) }
{
    match from_utf8(bytes) {
        Ok(_) => Ok(allowed_length(bytes)),
        Err(error) => Err(TokenFault::NotRead {
            at: error.valid_up_to(),
            why: TokenWhy::NotUtf8,
        }),
    }
}

/// The length of the longest prefix of a UTF-8 text that has XML characters only. It looks at bytes: all other
/// characters are control characters of one byte, or U+FFFE and U+FFFF, whose first byte is 0xEF.
fn allowed_length(text: &[u8]) -> usize
    ensures { result ≡ allowed_length text.now }
{
    let mut rest = text;
    while let Some(at) = first_suspect(rest) {
        if is_refused(&rest[at..]) {
            return text.len() - rest.len() + at;
        }
        rest = &rest[at + 1..];
    }
    text.len()
}

/// The index of the first byte that may begin a character that isn't an XML character.
fn first_suspect(text: &[u8]) -> Option<usize>
    ensures { result ≡ position is_suspect text.now }
{
    let rest = without_clean_blocks(text);
    match suspect_in(rest) {
        Some(at) => Some(text.len() - rest.len() + at),
        None => None,
    }
}

/// The index of the first suspect byte, byte by byte.
fn suspect_in(text: &[u8]) -> Option<usize>
    ensures { result ≡ position is_suspect text.now }
{
    text.iter().position(|byte| is_suspect(*byte))
}

/// The text without the blocks at its front that have no suspect byte.
fn without_clean_blocks(text: &[u8]) -> &[u8]
    ensures clean { IsCleanBefore text.now result.now }
    ensures shorter { length result.now ≤ length text.now }
{
    let mut rest = text;
    while let Some((block, tail)) = rest.split_at_checked(BLOCK) {
        if has_suspect(block) {
            return rest;
        }
        rest = tail;
    }
    rest
}

/// Whether a byte of the block is suspect.
fn has_suspect(block: &[u8]) -> bool
    ensures { result ≡ list_any is_suspect block.now }
{
    let mut found = false;
    // A loop that always goes to the end looks at several bytes in each step of the processor.
    for byte in block {
        found |= is_suspect(*byte);
    }
    found
}

/// Whether a character that isn't an XML character may begin with the byte.
fn is_suspect(byte: u8) -> bool
    ensures { result ≡ is_suspect byte }
{
    is_control(byte) | (byte == 0xEF)
}

/// Whether the byte is a control character that isn't an XML character.
fn is_control(byte: u8) -> bool
    ensures { result ≡ is_control byte }
{
    // Without branches, for `has_suspect`.
    (byte < 0x20) & (byte != b'\t') & (byte != b'\n') & (byte != b'\r')
}

/// Whether the text begins with a character that isn't an XML character.
fn is_refused(text: &[u8]) -> bool
    ensures { result ≡ is_refused text.now }
{
    match text.first() {
        None => false,
        Some(byte) if is_control(*byte) => true,
        // U+FFFE and U+FFFF.
        Some(_) => text.starts_with(b"\xEF\xBF\xBE") || text.starts_with(b"\xEF\xBF\xBF"),
    }
}
