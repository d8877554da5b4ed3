//! Operations and heads as bytes, and back.
ghost use Rattle.std.specs.Prelude.{◌≡◌, ◌⊎◌, ℕ, ◌≤◌, length, Ok, Err, IfOk};
ghost use Rattle.atom_writer.specs.Pieced.{IsNoText, IsPlaceOfRefusal, text_of};
ghost use Rattle.member_rules.specs.Coding.{heads, operations, payload_limit};
ghost use Rattle.member_rules.specs.Head.{HeadValue, IsHead};
ghost use Rattle.member_rules.specs.Operation.{IsOperation};
ghost use Rattle.member_rules.specs.declared.operation.Op.{Op};

mod bytes;
mod coded;
mod entry;
mod entry_fields;
mod fault;
mod head;
mod head_fields;
mod lists;
mod operation;
mod parts;
mod unread;
mod values;

use crate::head::Head;
use crate::operation::Op;
use atom_values::NoMemory;
use atom_writer::Count;
use fault::FieldFault;
use std::alloc::Global;
use std::error::Error;
use std::fmt;
use unread::Unread;

/// Why bytes are not read as an operation or as a head.
#[derive(Clone, Copy, Debug, PartialEq, Eq)]
pub enum CodecFault {
    /// The bytes are those of no value. The first field that is wrong begins at offset `at`.
    BadField { at: usize },
    /// Out of memory.
    NoMemory,
}

impl fmt::Display for CodecFault {
    fn fmt<W: fmt::Write>(&self, f: &mut fmt::Formatter<W>) -> fmt::Result {
        match self {
            CodecFault::BadField { at } => write!(f, "the field at byte {at} is bad"),
            CodecFault::NoMemory => write!(f, "out of memory"),
        }
    }
}

impl Error for CodecFault {}

/// Returns the bytes of the operation. The memory is allocated at once.
///
/// The only error is out of memory.
pub fn op_bytes(alloc: Global, operation: &Op) -> Result<Vec<u8>, NoMemory>
    ensures bytes { IfOk result (λ written. written.items ≡ text_of operations operation.now) }
    ensures bound { length (text_of operations operation.now) ≤ payload_limit }
    // The rules that the types of the operation keep.
    ensures rules { IsOperation operation.now }
{
    let mut count = Count { bytes: 0 };
    // A count takes no memory, so this can't fail.
    let _ = operation::push_operation(&mut count, operation);
    let mut out = Vec::with_capacity(alloc, count.bytes as usize)?;
    operation::push_operation(&mut out, operation)?;
    Ok(out)
}

/// Reads the bytes of an operation.
///
/// `BadField` exactly if the bytes are those of no operation. Its `at` is the total length of the longest list of whole
/// fields that the bytes begin with and that begins the list of fields of some operation. `NoMemory` if there is no
/// memory for the operation.
///
/// The bytes are read once, and each text is copied once.
pub fn read_op(alloc: Global, bytes: &[u8]) -> Result<Op, CodecFault>
    // The bytes are those of the operation that is returned.
    ensures found { IfOk result (λ operation.
        IsOperation operation × (bytes.now ≡ text_of operations operation)) }
    // Each operation's bytes are read as that operation, unless memory runs out.
    ensures only { (operation : Op) → IsOperation operation → bytes.now ≡ text_of operations operation
        → (result ≡ Ok operation) ⊎ (result ≡ Err CodecFault.NoMemory) }
    // A refusal states why and where.
    ensures refused { (at : ℕ) → result ≡ Err (CodecFault.BadField at)
        → IsNoText operations bytes.now × IsPlaceOfRefusal operations bytes.now at }
{
    let mut unread = Unread { rest: bytes };
    match operation::read_whole(alloc, &mut unread) {
        Ok(operation) => Ok(operation),
        Err(FieldFault::Mismatch) => Err(CodecFault::BadField {
            at: bytes.len() - unread.rest.len(),
        }),
        Err(FieldFault::NoMemory) => Err(CodecFault::NoMemory),
    }
}

/// Returns the bytes of the head. The memory is allocated at once.
///
/// The only error is out of memory.
pub fn head_bytes(alloc: Global, head: &Head) -> Result<Vec<u8>, NoMemory>
    ensures bytes { IfOk result (λ written. written.items ≡ text_of heads head.now) }
    ensures bound { length (text_of heads head.now) ≤ payload_limit }
    // The rules that the types of the head keep.
    ensures rules { IsHead head.now }
{
    let mut count = Count { bytes: 0 };
    // A count takes no memory, so this can't fail.
    let _ = head::push_head(&mut count, head);
    let mut out = Vec::with_capacity(alloc, count.bytes as usize)?;
    head::push_head(&mut out, head)?;
    Ok(out)
}

/// Reads the bytes of a head.
///
/// `BadField` exactly if the bytes are those of no head. Its `at` is the total length of the longest list of whole
/// fields that the bytes begin with and that begins the list of fields of some head. `NoMemory` if there is no memory
/// for the head.
pub fn read_head(alloc: Global, bytes: &[u8]) -> Result<Head, CodecFault>
    // The bytes are those of the head that is returned.
    ensures found { IfOk result (λ head. IsHead head × (bytes.now ≡ text_of heads head)) }
    // Each head's bytes are read as that head, unless memory runs out.
    ensures only { (head : HeadValue) → IsHead head → bytes.now ≡ text_of heads head
        → (result ≡ Ok head) ⊎ (result ≡ Err CodecFault.NoMemory) }
    // A refusal states why and where.
    ensures refused { (at : ℕ) → result ≡ Err (CodecFault.BadField at)
        → IsNoText heads bytes.now × IsPlaceOfRefusal heads bytes.now at }
{
    let mut unread = Unread { rest: bytes };
    match head::read_whole(alloc, &mut unread) {
        Ok(head) => Ok(head),
        Err(FieldFault::Mismatch) => Err(CodecFault::BadField {
            at: bytes.len() - unread.rest.len(),
        }),
        Err(FieldFault::NoMemory) => Err(CodecFault::NoMemory),
    }
}
