ghost use Rattle.std.specs.Prelude.{◌≡◌, ◌+◌, ◌≤◌, length, take, drop, true, IfOk, IsTrue};
ghost use Rattle.atom_values.specs.Counts.{HasCause, counted};
ghost use Rattle.feed_disk.specs.Moments.{LeavesAlone};
ghost use Rattle.feed_disk.specs.Raised.{raised};
ghost use Rattle.feed_disk.specs.declared.area.Area.{Area as AreaValue};

use atom_values::Failed;
use feed_disk::{Area, Disk};

/// Fills `bytes` from offset `at` of an area on, and returns whether the read gave all of them.
pub fn read_exactly<D: Disk>(
    disk: &mut D,
    area: Area,
    at: u64,
    bytes: &mut Vec<u8>,
) -> Result<bool, Failed>
    requires { D.observable → at + length bytes.old.items ≤ length ((D.state disk.old).content area) }
    ensures bytes { D.observable → IfOk result (λ whole. IsTrue whole
        × (bytes.new.items ≡ take (length bytes.old.items) (drop at ((D.state disk.old).content area)))) }
    ensures length { length bytes.new.items ≡ length bytes.old.items }
    ensures read { IfOk result (λ whole. whole ≡ true → (D.state disk.new).bytes_read
        ≡ raised (D.state disk.old).bytes_read (length bytes.new.items)) }
    ensures areas { (a : AreaValue) → LeavesAlone (D.state disk.old) (D.state disk.new) a }
    ensures calls { (D.state disk.new).clock ≡ counted (D.state disk.old).clock }
    ensures cause { HasCause (D.state disk.old).faults (D.state disk.new).faults result }
{
    let wanted = bytes.len();
    let count = disk.read(area, at, bytes.as_mut_slice())?;
    Ok(count == wanted)
}
