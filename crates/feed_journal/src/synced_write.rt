ghost use Rattle.std.specs.Prelude.{◌≡◌, ◌≢◌, ◌≤◌, ℕ, List, length, OnOk};
ghost use Rattle.atom_values.specs.Counts.{HasCause};
ghost use Rattle.feed_disk.specs.Disk.{written, TornFrom};
ghost use Rattle.feed_disk.specs.Moments.{AlwaysLeaves, LeavesAlone};
ghost use Rattle.feed_disk.specs.declared.area.Area.{Area as AreaValue};
ghost use Rattle.feed_journal.specs.Log.{MakesCalls, MakesUpTo};

use atom_values::Failed;
use feed_disk::{Area, Disk};

/// Writes the bytes from offset `at` on and syncs the area, and counts these two device calls.
pub fn write_and_sync<D: Disk>(
    disk: &mut D,
    area: Area,
    at: u64,
    bytes: &[u8],
    calls: &mut u64,
) -> Result<(), Failed>
    requires { D.observable → at ≤ length ((D.state disk.old).content area) }
    ensures content { OnOk result (D.observable
        → (D.state disk.new).content area ≡ written ((D.state disk.old).content area) at bytes.now) }
    ensures certain { OnOk result (D.observable → (i : List ℕ)
        → (D.state disk.new).image_now area i → i ≡ (D.state disk.new).content area) }
    ensures moments { AlwaysLeaves (D.state disk.old) (D.state disk.new) area
        (TornFrom at (length bytes.now) ((D.state disk.old).image_now area)) }
    ensures others { (a : AreaValue) → a ≢ area → LeavesAlone (D.state disk.old) (D.state disk.new) a }
    ensures ok { OnOk result (MakesCalls (D.state disk.old) (D.state disk.new) calls.old calls.new 2) }
    ensures calls { MakesUpTo (D.state disk.old) (D.state disk.new) calls.old calls.new 2 }
    ensures cause { HasCause (D.state disk.old).faults (D.state disk.new).faults result }
    ensures read { (D.state disk.new).bytes_read ≡ (D.state disk.old).bytes_read }
{
    *calls = calls.saturating_add(1);
    disk.write(area, at, bytes)?;
    *calls = calls.saturating_add(1);
    disk.sync(area)?;
    Ok(())
}
