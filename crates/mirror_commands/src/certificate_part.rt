//! The part of an input that is a certificate, before the pile.

ghost use Rattle.std.specs.Prelude.{◌≡◌, ◌⊎◌, ◌+◌, ◌<◌, ◌≤◌, ◌∷◌, ◌++◌, [], length, Err, IfErr, IfNone, IfOk};
ghost use Rattle.std.specs.Prelude.{IfSome, Ok, OnErr, OnOk, true, false};
ghost use Rattle.atom_values.specs.Counts.{CountsFault, HasCause};
ghost use Rattle.command_ends.specs.declared.fault.Fault.TheVariants.{Refused};
ghost use Rattle.command_ends.specs.declared.fault.Refusal.TheVariants.{TooLong};
ghost use Rattle.mirror_commands.specs.Audit.{EndsOnce, StopsInCertificate, audit_limit};
ghost use Rattle.mirror_commands.specs.CertificatePart.{IsAmid, IsLongPart, ReadsPart, byte_count};
ghost use Rattle.feed_disk.specs.Raised.{RisesAtMost};

use atom_values::Failed;
use command_ends::{Fault, Refusal};
use doc_source::Source;
use std::alloc::{AllocError, Global};

/// How many bytes a certificate and its pile may have together.
pub(crate) const AUDIT_LIMIT: usize = 1_073_741_824;

const LF: u8 = b'\n';

/// Returns the bytes of the input up to its first line `end`, or all of them if no line is `end`. No byte
/// after that line is read, since the pile begins there: there is one call of the input for each byte.
///
/// - `TooLong`: the input has more than `AUDIT_LIMIT` bytes, and none of the lines within them is `end`.
/// - `Input`: a call on the input failed.
/// - `NoMemory`: memory ran out.
pub(crate) fn read_part<I: Source>(alloc: Global, input: &mut I) -> Result<Vec<u8>, Fault>
    ensures part { IfOk result (λ text. I.observable
        → ReadsPart (I.state input.old) (I.state input.new) text.items) }
    ensures room { IfOk result (λ text. length text.items ≤ audit_limit) }
    ensures only_errors { IfErr result (λ fault.
        (fault ≡ Fault.NoMemory) ⊎ (fault ≡ Fault.Input) ⊎ (fault ≡ Refused TooLong)) }
    ensures past { result ≡ Err (Refused TooLong) → I.observable → IsLongPart (I.state input.old).left }
    ensures input { CountsFault (I.state input.old).faults (I.state input.new).faults
        (result ≡ Err Fault.Input) }
    ensures within { result ≡ Err Fault.Input → I.observable
        → StopsInCertificate (I.state input.old) (I.state input.new) }
    ensures read { IfOk result (λ text. RisesAtMost (length text.items)
        (I.state input.old).bytes_read (I.state input.new).bytes_read) }
    ensures bound { RisesAtMost (audit_limit + 1) (I.state input.old).bytes_read (I.state input.new).bytes_read }
{
    let mut text = Vec::new(alloc);
    let mut start = 0;
    loop {
        let Some(byte) = read_byte(input)? else {
            return Ok(text);
        };
        if text.len() == AUDIT_LIMIT {
            return Err(Fault::Refused(Refusal::TooLong));
        }
        if push_byte(&mut text, &mut start, byte)? {
            return Ok(text);
        }
    }
}

/// Reads the next byte. `None` at the end of the input.
fn read_byte<I: Source>(input: &mut I) -> Result<Option<u8>, Failed>
    ensures some { IfOk result (λ found. IfSome found (λ byte. I.observable
        → (I.state input.old).left ≡ byte ∷ (I.state input.new).left)) }
    ensures none { IfOk result (λ found. IfNone found (I.observable
        → ((I.state input.old).left ≡ []) × ((I.state input.new).left ≡ []))) }
    ensures err { OnErr result (I.observable → (I.state input.new).left ≡ (I.state input.old).left) }
    ensures read { IfOk result (λ found. RisesAtMost (byte_count found)
        (I.state input.old).bytes_read (I.state input.new).bytes_read) }
    ensures unread { OnErr result ((I.state input.new).bytes_read ≡ (I.state input.old).bytes_read) }
    ensures counts { HasCause (I.state input.old).faults (I.state input.new).faults result }
{
    let mut buffer = [0u8; 1];
    if input.read(&mut buffer)? == 0 {
        return Ok(None);
    }
    Ok(Some(buffer[0]))
}

/// Appends a byte to lines of which none is `end`, and returns whether the byte completes a line `end`. The last line
/// begins at `start`.
fn push_byte(text: &mut Vec<u8>, start: &mut usize, byte: u8) -> Result<bool, AllocError>
    requires { IsAmid text.old.items start.old }
    ensures bytes { OnOk result (text.new.items ≡ text.old.items ++ byte ∷ []) }
    ensures ends { result ≡ Ok true → EndsOnce text.new.items }
    ensures amid { result ≡ Ok false → IsAmid text.new.items start.new }
{
    text.push(byte)?;
    if byte != LF {
        return Ok(false);
    }
    let ends = &text[*start..] == b"end\n".as_slice();
    *start = text.len();
    Ok(ends)
}
