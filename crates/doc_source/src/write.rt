//! Writes bytes and piles to a sink.

ghost use Rattle.std.specs.Prelude.{◌≡◌, ◌+◌, ◌≤◌, ◌++◌, length, OnOk};
ghost use Rattle.arrayvec.specs.ArrayString.{array_string_len};
ghost use Rattle.atom_values.specs.Counts.{HasCause};
ghost use Rattle.doc_source.specs.Outside.{TakesPrefix};
ghost use Rattle.doc_source.specs.Pile.{count_text, offer_text, pile_head};

use crate::outside::Sink;
use arrayvec::ArrayString;
use atom_values::Failed;
use itoa::Buffer;

/// The first line of a pile.
pub(crate) const PILE_HEAD: &[u8] = b"pile 1\n";

/// The most bytes of the end of an offer's first line: a space, the 20 digits of the greatest number, and LF.
const COUNT_LINE: usize = 22;

type CountLine = ArrayString<COUNT_LINE>;

/// Writes all the bytes, in one call of the sink unless the sink takes only a part of them.
///
/// `Failed`: a call of the sink failed, and the sink took a prefix.
pub fn write_all<K: Sink>(sink: &mut K, bytes: &[u8]) -> Result<(), Failed>
    ensures prefix { K.observable → TakesPrefix (K.state sink.old) (K.state sink.new) bytes.now }
    ensures whole { OnOk result (K.observable
        → (K.state sink.new).taken ≡ (K.state sink.old).taken ++ bytes.now) }
    ensures counts { HasCause (K.state sink.old).faults (K.state sink.new).faults result }
{
    let mut sent = 0;
    while sent < bytes.len() {
        let (_, rest) = bytes.split_at(sent);
        sent += sink.write(rest)?;
    }
    Ok(())
}

/// Writes the first line of a pile. Offers follow by [`write_offer`].
///
/// `Failed`: a call of the sink failed, and the sink took a prefix.
pub fn write_pile_head<K: Sink>(sink: &mut K) -> Result<(), Failed>
    ensures prefix { K.observable → TakesPrefix (K.state sink.old) (K.state sink.new) pile_head }
    ensures whole { OnOk result (K.observable
        → (K.state sink.new).taken ≡ (K.state sink.old).taken ++ pile_head) }
    ensures counts { HasCause (K.state sink.old).faults (K.state sink.new).faults result }
{
    write_all(sink, PILE_HEAD)
}

/// Writes an offer of a pile: `bytes` as the document of `address`. It takes no memory, and makes at most four calls of
/// the sink, or more if the sink takes only a part of the bytes of a call.
///
/// A reader takes the offer only if the address has 1 to 1,024 bytes, none of them a space or LF, and `bytes` has at
/// most 67,108,864. This function doesn't check either.
///
/// `Failed`: a call of the sink failed, and the sink took a prefix.
pub fn write_offer<K: Sink>(sink: &mut K, address: &[u8], bytes: &[u8]) -> Result<(), Failed>
    ensures prefix { K.observable → TakesPrefix (K.state sink.old) (K.state sink.new)
        (offer_text record { address = address.now; bytes = bytes.now }) }
    ensures whole { OnOk result (K.observable → (K.state sink.new).taken ≡ (K.state sink.old).taken
        ++ offer_text record { address = address.now; bytes = bytes.now }) }
    ensures counts { HasCause (K.state sink.old).faults (K.state sink.new).faults result }
{
    write_all(sink, address)?;
    write_all(sink, count_line(bytes.len()).as_str().as_bytes())?;
    write_all(sink, bytes)?;
    write_all(sink, b"\n")
}

/// The end of an offer's first line: a space, the number of its bytes, and LF.
fn count_line(count: usize) -> CountLine
    ensures { result.bytes ≡ count_text count }
{
    let mut line = ArrayString::new();
    append(&mut line, " ");
    append(&mut line, Buffer::new().format(count));
    append(&mut line, "\n");
    line
}

/// Appends a text for which the line has room.
fn append(line: &mut CountLine, text: &str)
    requires { array_string_len line.old + length text.now ≤ COUNT_LINE }
    ensures bytes { line.new.bytes ≡ line.old.bytes ++ text.now }
    ensures len { array_string_len line.new ≡ array_string_len line.old + length text.now }
{
    // The text fits, so it is never handed back.
    let _ = line.try_push_str(text);
}
