ghost use Rattle.std.specs.Prelude.{◌≡◌, ◌↔◌, ℕ, List, ◌≤◌, ◌++◌, IsTrue, length};
ghost use Rattle.atom_grammar.specs.Cutting.{mark_of, IsCut, IsWhole};

use crate::reader::Reader;
use memchr::memchr;

/// The bytes that end the piece which begins like this text. Three kinds of pieces may have line ends in their texts and
/// end with their end tag, which no text has, since `<` is escaped.
fn mark_of(text: &[u8]) -> &'static [u8]
    ensures { result.now ≡ mark_of text.now }
{
    let reader = Reader::new(text);
    if reader.at(b"<title>") {
        b"</title>\n"
    } else if reader.at(b"<author>") {
        b"</author>\n"
    } else if reader.at(b"<entry>") {
        b"</entry>\n"
    } else {
        b"\n"
    }
}

/// Whether the text ends as the piece does that begins like it.
pub(crate) fn is_whole(text: &[u8]) -> bool
    ensures { IsTrue result ↔ IsWhole text.now }
{
    text.ends_with(mark_of(text))
}

/// The length of the piece that the text begins with. If it begins with none, this is the length of the text.
pub(crate) fn piece_len(text: &[u8]) -> usize
    ensures within { result ≤ length text.now }
    ensures cut { (piece rest : List ℕ) → IsCut piece → text.now ≡ piece ++ rest → result ≡ length piece }
{
    let mut len = 0;
    while let Some(at) = memchr(b'\n', &text[len..]) {
        len += at + 1;
        if is_whole(&text[..len]) {
            return len;
        }
    }
    text.len()
}
