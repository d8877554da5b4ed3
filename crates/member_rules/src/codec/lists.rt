ghost use Rattle.std.specs.Prelude.{◌≤◌, All, length, OnOk, OnErr};
ghost use Rattle.atom_values.specs.Listed.{Listed};
ghost use Rattle.member_rules.specs.Coding.{list_field};
ghost use Rattle.member_rules.specs.Fields.{ReadsAs, byte_limit, listed};

use crate::codec::coded::Coded;
use crate::codec::fault::FieldFault;
use crate::codec::unread::Unread;
use atom_values::{Many, NoMemory};
use atom_writer::Out;
use std::alloc::Global;

/// Adds the number of items and the items.
pub(crate) fn push_list<T: Coded, W: Out>(out: &mut W, items: &[T]) -> Result<(), NoMemory>
    requires { length items.now ≤ byte_limit }
    ensures added { OnOk result (W.adds out.old out.new (list_field T.field.bytes items.now)) }
    ensures failed { OnErr result W.can_fail }
    ensures rules { OnOk result (All T.field.Is items.now) }
{
    out.push(&[items.len() as u8])?;
    for item in items {
        item.push(out)?;
    }
    Ok(())
}

/// Reads the number of items and the items. More than the list holds are a mismatch. The list's memory is allocated at
/// once.
pub(crate) fn read_list<T: Coded + Drop, const MAX: u32>(
    alloc: Global,
    unread: &mut Unread,
) -> Result<Many<T, MAX>, FieldFault>
    requires { MAX ≤ byte_limit }
    ensures { ReadsAs (λ (m : Listed T). m.items) (listed MAX T.field)
        unread.old.rest.now result unread.new.rest.now }
{
    // For the proof alone: the items before one that isn't there are those of any list.
    T::has_one_value();
    let mut left = *unread;
    let count = left.byte()?;
    if u32::from(count) > MAX {
        return Err(FieldFault::Mismatch);
    }
    let mut items = Many::new(alloc);
    items.reserve(usize::from(count))?;
    for _ in 0..count {
        // The list has room for each item, so only memory can be missing.
        if items.push(T::read(alloc, &mut left)?).is_err() {
            return Err(FieldFault::NoMemory);
        }
    }
    *unread = left;
    Ok(items)
}
