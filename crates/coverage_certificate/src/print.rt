//! The printing of a certificate, line by line.

ghost use Rattle.std.specs.Prelude.{◌≡◌, ◌+◌, ◌≤◌, ◌∷◌, ◌++◌, [], decimal, length, map, OnOk};
ghost use Rattle.arrayvec.specs.ArrayVec.{array_vec_len};
ghost use Rattle.atom_values.specs.Ascii.{lf};
ghost use Rattle.atom_values.specs.Counts.{HasCause};
ghost use Rattle.chain_links.specs.Address.{suffix_limit, suffix_text};
ghost use Rattle.doc_source.specs.Outside.{TakesPrefix};
ghost use Rattle.coverage_certificate.specs.Text.{certificate_text, document_line, ending_lines, opening_lines};
ghost use Rattle.coverage_certificate.specs.Text.{text_of_lines};

use crate::certificate::Certificate;
use crate::cover_line::CoverLine;
use crate::field::digest_digits;
use arrayvec::ArrayVec;
use atom_values::Failed;
use chain_links::{Address, Base};
use deleted_entries::FeedId;
use doc_source::{Sink, write_all};
use itoa::Buffer;

/// The most bytes of the lines that are written at once: a document line, whose address has 218 bytes.
const MAX_LINES: usize = 293;

/// Lines that are written at once. They have a fixed room, so that no memory is needed.
type Lines = ArrayVec<u8, MAX_LINES>;

impl Certificate {
    /// Writes the certificate's text. It takes no memory, and makes a call of the sink for each document and
    /// two more, or more calls if the sink takes only a part of the bytes of a call.
    ///
    /// `Failed`: a call of the sink failed, and the sink took a prefix of the text.
    pub fn print<K: Sink>(&self, sink: &mut K) -> Result<(), Failed>
        ensures prefix { K.observable → TakesPrefix (K.state sink.old) (K.state sink.new)
            (certificate_text self.now) }
        ensures whole { OnOk result (K.observable
            → (K.state sink.new).taken ≡ (K.state sink.old).taken ++ certificate_text self.now) }
        ensures counts { HasCause (K.state sink.old).faults (K.state sink.new).faults result }
    {
        let opening = opening(&self.feed, &self.base, self.version);
        let ending = ending(self.live_count, &self.live_digest);
        write_all(sink, opening.as_slice())?;
        print_documents(sink, &self.base, self.lines.as_slice())?;
        write_all(sink, ending.as_slice())
    }
}

/// Writes the document lines.
fn print_documents<K: Sink>(sink: &mut K, base: &Base, lines: &[CoverLine]) -> Result<(), Failed>
    ensures prefix { K.observable → TakesPrefix (K.state sink.old) (K.state sink.new)
        (text_of_lines (map (document_line base.now) lines.now)) }
    ensures whole { OnOk result (K.observable → (K.state sink.new).taken
        ≡ (K.state sink.old).taken ++ text_of_lines (map (document_line base.now) lines.now)) }
    ensures counts { HasCause (K.state sink.old).faults (K.state sink.new).faults result }
{
    for line in lines {
        let text = document(base, line);
        write_all(sink, text.as_slice())?;
    }
    Ok(())
}

/// The lines up to the documents.
fn opening(feed: &FeedId, base: &Base, version: u32) -> Lines
    ensures { result.items ≡ text_of_lines (opening_lines feed.now base.now version) }
{
    let mut lines = Lines::new();
    append(&mut lines, b"coverage 1\nfeed ");
    append(&mut lines, feed.print().as_slice());
    append(&mut lines, b" ");
    append(&mut lines, base.text());
    append(&mut lines, b"\nversion ");
    append(&mut lines, Buffer::new().format(version).as_bytes());
    append(&mut lines, b"\n");
    lines
}

/// The line of a document.
fn document(base: &Base, line: &CoverLine) -> Lines
    ensures { result.items ≡ document_line base.now line.now ++ lf ∷ [] }
{
    let mut lines = Lines::new();
    append(&mut lines, b"document ");
    append(&mut lines, base.text());
    append_suffix(&mut lines, line.address);
    append(&mut lines, b" ");
    append(&mut lines, digest_digits(&line.digest).as_slice());
    append(&mut lines, b"\n");
    lines
}

/// Appends the part of an address after the base.
fn append_suffix(lines: &mut Lines, address: Address)
    requires { array_vec_len lines.old + suffix_limit ≤ MAX_LINES }
    ensures items { lines.new.items ≡ lines.old.items ++ suffix_text address }
    ensures len { array_vec_len lines.new ≤ array_vec_len lines.old + suffix_limit }
{
    match address {
        Address::Feed => append(lines, b"feed"),
        Address::Archive(number) => append_numbered(lines, b"archive/", number),
        Address::Member(number) => append_numbered(lines, b"member/", number),
    }
}

/// Appends a word of at most eight bytes and a decimal number.
fn append_numbered(lines: &mut Lines, word: &[u8], number: u32)
    requires room { array_vec_len lines.old + suffix_limit ≤ MAX_LINES }
    requires short { length word.now ≤ 8 }
    ensures items { lines.new.items ≡ lines.old.items ++ (word.now ++ decimal number) }
    ensures len { array_vec_len lines.new ≤ array_vec_len lines.old + suffix_limit }
{
    append(lines, word);
    append(lines, Buffer::new().format(number).as_bytes());
}

/// The lines after the documents.
fn ending(count: u32, digest: &[u8; 32]) -> Lines
    ensures { result.items ≡ text_of_lines (ending_lines count digest.now) }
{
    let mut lines = Lines::new();
    append(&mut lines, b"live ");
    append(&mut lines, Buffer::new().format(count).as_bytes());
    append(&mut lines, b" ");
    append(&mut lines, digest_digits(digest).as_slice());
    append(&mut lines, b"\nend\n");
    lines
}

/// Appends bytes for which the lines have room.
fn append(lines: &mut Lines, bytes: &[u8])
    requires { array_vec_len lines.old + length bytes.now ≤ MAX_LINES }
    ensures items { lines.new.items ≡ lines.old.items ++ bytes.now }
    ensures len { array_vec_len lines.new ≡ array_vec_len lines.old + length bytes.now }
{
    // The bytes fit, so they are never refused.
    let _ = lines.try_extend_from_slice(bytes);
}
