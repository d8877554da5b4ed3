ghost use Rattle.std.specs.Prelude.{◌≡◌, ◌≢◌, ◌-◌, ◌^◌, ◌<◌, ◌≤◌, ℕ, List, [], ◌∷◌, length, OnOk};
ghost use Rattle.atom_values.specs.Counts.{HasCause};
ghost use Rattle.feed_disk.specs.Disk.{written};
ghost use Rattle.feed_disk.specs.Moments.{AlwaysLeaves, LeavesAlone, NowOnly};
ghost use Rattle.feed_disk.specs.declared.area.Area.{Area as AreaValue};
ghost use Rattle.feed_journal.specs.Limits.{payload_count_limit, open_gate};
ghost use Rattle.feed_journal.specs.Log.{MakesCalls, MakesUpTo};
ghost use Rattle.feed_journal.specs.Records.{records, size_of, tail_of, Begins, IsStep};

use crate::framed::Framed;
use crate::limits::OPEN_GATE;
use crate::synced_write::write_and_sync;
use atom_values::Failed;
use feed_disk::{Area, Disk};

/// Writes a payload after the closed gate of an area and syncs it, then opens the gate and syncs that, and
/// counts these four device calls. The gate is the last of the first `size` bytes.
pub fn write_frame<D: Disk>(
    disk: &mut D,
    area: Area,
    size: u64,
    framed: &Framed,
    calls: &mut u64,
) -> Result<(), Failed>
    requires gate { 0 < size }
    requires fits { size < 2 ^ 63 }
    requires offset { D.observable → size ≤ length ((D.state disk.old).content area) }
    ensures content { OnOk result (D.observable → (D.state disk.new).content area
        ≡ written (written ((D.state disk.old).content area) size (tail_of framed.now))
        (size - 1) (open_gate ∷ [])) }
    ensures certain { OnOk result (D.observable → (i : List ℕ)
        → (D.state disk.new).image_now area i → i ≡ (D.state disk.new).content area) }
    ensures moments { let before = records ((D.state disk.old).content area) in
        D.observable → size ≡ size_of before → length before < payload_count_limit
        → NowOnly (D.state disk.old) area (Begins before)
        → AlwaysLeaves (D.state disk.old) (D.state disk.new) area (IsStep before framed.now) }
    ensures others { (a : AreaValue) → a ≢ area → LeavesAlone (D.state disk.old) (D.state disk.new) a }
    ensures ok { OnOk result (MakesCalls (D.state disk.old) (D.state disk.new) calls.old calls.new 4) }
    ensures calls { MakesUpTo (D.state disk.old) (D.state disk.new) calls.old calls.new 4 }
    ensures cause { HasCause (D.state disk.old).faults (D.state disk.new).faults result }
    ensures read { (D.state disk.new).bytes_read ≡ (D.state disk.old).bytes_read }
{
    write_and_sync(disk, area, size, framed.tail(), calls)?;
    write_and_sync(disk, area, size - 1, &[OPEN_GATE], calls)?;
    Ok(())
}
