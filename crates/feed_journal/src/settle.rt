ghost use Rattle.std.specs.Prelude.{◌≡◌, ◌≢◌, ◌<◌, ℕ, List, length, OnOk, IfOk};
ghost use Rattle.atom_values.specs.Counts.{HasCause};
ghost use Rattle.feed_disk.specs.Moments.{AlwaysLeaves, LeavesAlone};
ghost use Rattle.feed_disk.specs.declared.area.Area.{Area as AreaValue};
ghost use Rattle.feed_journal.specs.Log.{MakesCalls, MakesUpTo};
ghost use Rattle.feed_journal.specs.Records.{StandsFor, padded};

use crate::limits::{CLOSED_GATE, LEAST_SIZE};
use crate::synced_write::write_and_sync;
use atom_values::Failed;
use feed_disk::{Area, Disk};

/// Syncs an area, writes a closed gate at its start and syncs it again if it is too short for a payload, and
/// returns its size. It counts these device calls.
pub fn settle_area<D: Disk>(disk: &mut D, area: Area, calls: &mut u64) -> Result<u64, Failed>
    ensures size { IfOk result (λ n. D.observable → n ≡ length ((D.state disk.new).content area)) }
    ensures some { IfOk result (λ n. 0 < n) }
    ensures content { OnOk result (D.observable
        → (D.state disk.new).content area ≡ padded ((D.state disk.old).content area)) }
    ensures certain { OnOk result (D.observable → (i : List ℕ)
        → (D.state disk.new).image_now area i → i ≡ (D.state disk.new).content area) }
    ensures moments { D.observable → AlwaysLeaves (D.state disk.old) (D.state disk.new) area
        (StandsFor ((D.state disk.old).image_now area)) }
    ensures others { (a : AreaValue) → a ≢ area → LeavesAlone (D.state disk.old) (D.state disk.new) a }
    ensures calls { MakesUpTo (D.state disk.old) (D.state disk.new) calls.old calls.new 4 }
    ensures cause { HasCause (D.state disk.old).faults (D.state disk.new).faults result }
    ensures read { (D.state disk.new).bytes_read ≡ (D.state disk.old).bytes_read }
{
    let size = sync_and_size(disk, area, calls)?;
    if size >= LEAST_SIZE {
        return Ok(size);
    }
    write_and_sync(disk, area, 0, &[CLOSED_GATE], calls)?;
    Ok(size.max(1))
}

/// Syncs an area and returns its size, and counts these two device calls.
fn sync_and_size<D: Disk>(disk: &mut D, area: Area, calls: &mut u64) -> Result<u64, Failed>
    ensures size { IfOk result (λ n. D.observable → n ≡ length ((D.state disk.new).content area)) }
    ensures content { OnOk result (D.observable
        → (D.state disk.new).content area ≡ (D.state disk.old).content area) }
    ensures certain { OnOk result (D.observable → (i : List ℕ)
        → (D.state disk.new).image_now area i → i ≡ (D.state disk.new).content area) }
    ensures moments { AlwaysLeaves (D.state disk.old) (D.state disk.new) area
        ((D.state disk.old).image_now area) }
    ensures others { (a : AreaValue) → a ≢ area → LeavesAlone (D.state disk.old) (D.state disk.new) a }
    ensures ok { OnOk result (MakesCalls (D.state disk.old) (D.state disk.new) calls.old calls.new 2) }
    ensures calls { MakesUpTo (D.state disk.old) (D.state disk.new) calls.old calls.new 2 }
    ensures cause { HasCause (D.state disk.old).faults (D.state disk.new).faults result }
    ensures read { (D.state disk.new).bytes_read ≡ (D.state disk.old).bytes_read }
{
    *calls = calls.saturating_add(1);
    disk.sync(area)?;
    *calls = calls.saturating_add(1);
    let size = disk.size(area)?;
    Ok(size)
}
