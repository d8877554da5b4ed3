ghost use Rattle.std.specs.Prelude.{◌≡◌, ℤ, List, ◌≤◌, ◌++◌, IfOk, OnOk};
ghost use Rattle.member_rules.specs.Table.{IsTableOf};
ghost use Rattle.member_rules.specs.declared.operation.Op.{Op};
ghost use Rattle.service_face.specs.Listing.{line_of, lines_at, listing_text};

use atom_values::NoMemory;
use chain_links::{Address, Base};
use itoa::Buffer;
use member_rules::{Members, State};
use std::alloc::Global;

/// Returns the listing of the live members: a line `VERSION ADDRESS` for each, the one whose last operation is the
/// newest first. VERSION is the number of that operation.
///
/// The only error is out of memory. Cost: one look at each member that was ever made.
pub fn listing(alloc: Global, base: &Base, members: &Members) -> Result<Vec<u8>, NoMemory>
    ensures { (created : ℤ) (history : List Op) → IsTableOf members.now created history
        → IfOk result (λ text. text.items ≡ listing_text base.now history) }
{
    let mut text = Vec::new(alloc);
    let mut next = members.newest();
    // The contracts of the table say nothing without a history, so the count is what bounds the walk.
    for _ in 0..members.count() {
        let Some(number) = next else {
            return Ok(text);
        };
        push_member(&mut text, base, members, number)?;
        next = members.before(number);
    }
    Ok(text)
}

/// Appends the line of the member, if it is live.
fn push_member(
    text: &mut Vec<u8>,
    base: &Base,
    members: &Members,
    number: u32,
) -> Result<(), NoMemory>
    ensures { (created : ℤ) (history : List Op) → IsTableOf members.now created history
        → OnOk result (text.new.items ≡ text.old.items ++ lines_at base.now history number) }
{
    match members.state(number) {
        State::Live { version, .. } => push_line(text, base, version, number),
        State::Never | State::Gone { .. } => Ok(()),
    }
}

/// Appends the line of the member, which the operation `version` named last.
fn push_line(text: &mut Vec<u8>, base: &Base, version: u32, number: u32) -> Result<(), NoMemory>
    requires { 1 ≤ number }
    ensures { OnOk result (text.new.items ≡ text.old.items ++ line_of base.now version number) }
{
    text.extend_from_slice(Buffer::new().format(version).as_bytes())?;
    text.push(b' ')?;
    base.print_into(text, Address::Member(number))?;
    text.push(b'\n')?;
    Ok(())
}
