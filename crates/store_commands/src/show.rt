ghost use Rattle.std.specs.Prelude.{◌≡◌, ◌≢◌, ◌⊎◌, ◌+◌, ◌≤◌, ◌<◌, length, Err, IfOk, IfErr};
ghost use Rattle.atom_values.specs.Counts.{CountsFault};
ghost use Rattle.atom_grammar.specs.Progress.{HasRead};
ghost use Rattle.command_ends.specs.declared.fault.Fault.TheVariants.{Refused};
ghost use Rattle.command_ends.specs.declared.fault.Refusal.TheVariants.{TooLong};
ghost use Rattle.command_ends.specs.declared.status.Status.TheVariants as status;
ghost use Rattle.command_ends.specs.Fault.{fault_answer, IsRefusal};
ghost use Rattle.store_commands.specs.Show.{IsShown, ReadsWithinLimit, document_limit};
ghost use Rattle.feed_disk.specs.Raised.{RisesAtMost};

use crate::lines::read_front;
use atom_grammar::{DocReader, MAX_DOCUMENT, ReadFault};
use command_ends::{Fault, Refusal, summary};
use doc_source::Source;
use std::alloc::Global;

/// How many bytes are asked of the input at a time.
const BUFFER: usize = 65_536;

/// `show`: returns the summary of the document that the input is. The input is read to its end, and no copy of it is
/// kept.
///
/// Errors: `Refused` with the offset at which the input stops being the text of a document, or if it has more than
/// 67,108,864 bytes; `Input` if a call on the input failed; `NoMemory`.
pub fn show<I: Source>(alloc: Global, input: &mut I) -> Result<Vec<u8>, Fault>
    ensures shown { IfOk result (λ written. I.observable
        → IsShown (I.state input.old).left record { status = status.Done; printed = written.items }) }
    ensures refused { IfErr result (λ fault. IsRefusal fault → I.observable
        → IsShown (I.state input.old).left (fault_answer fault)) }
    ensures input_faults { CountsFault (I.state input.old).faults (I.state input.new).faults
        (result ≡ Err Fault.Input) }
    ensures within { result ≡ Err Fault.Input → I.observable
        → ReadsWithinLimit (I.state input.old) (I.state input.new) }
    ensures read { RisesAtMost (document_limit + 1)
        (I.state input.old).bytes_read (I.state input.new).bytes_read }
    ensures no_disk { result ≢ Err Fault.Disk }
{
    let reader = read_to_end(alloc, input)?;
    match reader.finish() {
        Ok(doc) => {
            let lines = summary(alloc, &doc);
            drop(doc);
            Ok(lines?)
        }
        Err(ReadFault::NotADocument { at }) => Err(Fault::Refused(Refusal::BadDocument {
            offset: at as u64,
        })),
        Err(ReadFault::NoMemory) => Err(Fault::NoMemory),
    }
}

/// Returns a reader that was given all bytes of the input, if they are no more than a document may have. Reads one byte
/// more of a longer input.
fn read_to_end<I: Source>(alloc: Global, input: &mut I) -> Result<DocReader, Fault>
    ensures read { IfOk result (λ reader. I.observable → HasRead reader (I.state input.old).left) }
    ensures room { IfOk result (λ reader. reader.length ≤ MAX_DOCUMENT) }
    ensures only_errors { IfErr result (λ fault.
        (fault ≡ Fault.NoMemory) ⊎ (fault ≡ Fault.Input) ⊎ (fault ≡ Refused TooLong)) }
    ensures past { result ≡ Err (Refused TooLong) → I.observable → MAX_DOCUMENT < length (I.state input.old).left }
    ensures bound { RisesAtMost (document_limit + 1)
        (I.state input.old).bytes_read (I.state input.new).bytes_read }
    ensures input_faults { CountsFault (I.state input.old).faults (I.state input.new).faults
        (result ≡ Err Fault.Input) }
    ensures within { result ≡ Err Fault.Input → I.observable
        → ReadsWithinLimit (I.state input.old) (I.state input.new) }
{
    let mut buffer = vec![in alloc; 0; BUFFER]?;
    let mut reader = DocReader::new(alloc);
    loop {
        let room = BUFFER.min(MAX_DOCUMENT - reader.len() + 1);
        let count = match read_front(input, &mut buffer, room) {
            Ok(count) => count,
            Err(error) => {
                drop(reader);
                return Err(Fault::from(error));
            }
        };
        if count == 0 {
            return Ok(reader);
        }
        if count > MAX_DOCUMENT - reader.len() {
            drop(reader);
            return Err(Fault::Refused(Refusal::TooLong));
        }
        // A refusal stays in the reader. The rest is read too, since an input that is too long is refused as that.
        let _ = reader.feed(&buffer[..count]);
    }
}
