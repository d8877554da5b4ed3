ghost use Rattle.std.specs.Prelude.{◌≡◌, ◌≢◌, ◌+◌, ◌*◌, ◌<◌, ◌≤◌, ℕ, [], length, drop, take, IfOk, OnOk};
ghost use Rattle.std.specs.Prelude.{IfSome, IsTrue, ◌↔◌};
ghost use Rattle.std.specs.Int.{w32, to_be_bytes};
ghost use Rattle.atom_values.specs.Counts.{CountsFault, HasCause};
ghost use Rattle.feed_disk.specs.Moments.{LeavesAlone};
ghost use Rattle.feed_disk.specs.Raised.{raised};
ghost use Rattle.feed_disk.specs.declared.area.Area.{Area as AreaValue};
ghost use Rattle.feed_journal.specs.Ahead.{Gives, IsAhead};
ghost use Rattle.feed_journal.specs.Limits.{payload_limit, header_length};
ghost use Rattle.feed_journal.specs.Log.{KeepsLog, MakesSome, IsScanned};
ghost use Rattle.feed_journal.specs.Scan.{IsClosedAt, IsHeader, IsNext, header_bytes};
ghost use Rattle.feed_journal.specs.declared.fault.LogFault.TheVariants.{DiskFault as DiskFailed, Changed};

use crate::ahead::Ahead;
use crate::extent::Extent;
use crate::extents::Extents;
use crate::fault::LogFault;
use crate::limits::{HEADER_LENGTH, LEAST_SIZE, OPEN_GATE, PAYLOAD_COUNT_LIMIT, PAYLOAD_LIMIT};
use atom_values::Failed;
use feed_disk::{Area, Disk};
use std::alloc::Global;

/// Returns the length of the payload whose frame has this header, if that payload ends before the last of the
/// `after` bytes after the header.
fn length_in(header: [u8; 5], after: u64) -> Option<u32>
    ensures header { IsHeader header after result }
    ensures spelt { IfSome result (λ n. to_be_bytes w32 n ≡ take 4 (drop 1 header)) }
{
    let [gate, a, b, c, d] = header;
    let length = u32::from_be_bytes([a, b, c, d]);
    if gate == OPEN_GATE && length <= PAYLOAD_LIMIT && u64::from(length) < after {
        Some(length)
    } else {
        None
    }
}

/// Reads the header at offset `at` of an area of this size, and returns the payload's length if a frame is
/// there. It counts its device call.
pub fn next_frame<D: Disk>(
    disk: &mut D,
    area: Area,
    at: u64,
    size: u64,
    ahead: &mut Ahead,
    calls: &mut u64,
) -> Result<Option<u32>, Failed>
    requires fits { at + header_length < size }
    requires size { D.observable → size ≡ length ((D.state disk.old).content area) }
    requires ahead { D.observable → IsAhead ahead.old ((D.state disk.old).content area) }
    ensures found { IfOk result (λ found. D.observable → IsNext (drop at ((D.state disk.old).content area)) found) }
    ensures within { IfOk result (λ found. IfSome found (λ n.
        (n ≤ payload_limit) × (at + n + header_length < size))) }
    ensures areas { (a : AreaValue) → LeavesAlone (D.state disk.old) (D.state disk.new) a }
    ensures calls { MakesSome (D.state disk.old) (D.state disk.new) calls.old calls.new }
    ensures cause { HasCause (D.state disk.old).faults (D.state disk.new).faults result }
    ensures ahead { D.observable → IsAhead ahead.new ((D.state disk.new).content area) }
    ensures read { IfOk result (λ found.
        Gives (D.state disk.old) (D.state disk.new) at (header_bytes found) ahead.old ahead.new) }
{
    let mut header = [0u8; 5];
    let count = ahead.read(disk, area, at, &mut header, calls)?;
    if count < header.len() {
        return Ok(None);
    }
    Ok(length_in(header, size - at - HEADER_LENGTH))
}

/// Returns whether an area of this size is whole, whose frames end at offset `end`. It counts its device call.
pub fn is_whole<D: Disk>(
    disk: &mut D,
    area: Area,
    end: u64,
    size: u64,
    ahead: &mut Ahead,
    calls: &mut u64,
) -> Result<bool, Failed>
    requires within { end < size }
    requires size { D.observable → size ≡ length ((D.state disk.old).content area) }
    requires ahead { D.observable → IsAhead ahead.old ((D.state disk.old).content area) }
    ensures whole { IfOk result (λ whole. D.observable
        → (IsTrue whole ↔ IsClosedAt end ((D.state disk.old).content area))) }
    ensures areas { (a : AreaValue) → LeavesAlone (D.state disk.old) (D.state disk.new) a }
    ensures calls { MakesSome (D.state disk.old) (D.state disk.new) calls.old calls.new }
    ensures cause { HasCause (D.state disk.old).faults (D.state disk.new).faults result }
    ensures ahead { D.observable → IsAhead ahead.new ((D.state disk.new).content area) }
    ensures read { OnOk result (raised (D.state disk.old).bytes_read 0 ≤ (D.state disk.new).bytes_read) }
{
    if size < LEAST_SIZE {
        return Ok(true);
    }
    let mut gate = [OPEN_GATE];
    let _count = ahead.read(disk, area, end, &mut gate, calls)?;
    let [gate] = gate;
    Ok(gate != OPEN_GATE)
}

/// The payloads that a scan found.
#[derive(Drop)]
pub struct Scanned {
    pub places: Vec<Extent>,
    /// The places again, as `Frames` has them.
    pub extents: Extents,
    /// The offset at which their frames end.
    pub end: u64,
}

/// Finds the payloads of an area of this size. It counts its device calls.
pub fn scan<D: Disk>(
    alloc: Global,
    disk: &mut D,
    area: Area,
    size: u64,
    ahead: &mut Ahead,
    calls: &mut u64,
) -> Result<Scanned, LogFault>
    requires some { 0 < size }
    requires size { D.observable → size ≡ length ((D.state disk.old).content area) }
    requires none { ahead.old.bytes ≡ [] }
    ensures rules { IfOk result (λ found. KeepsLog found.extents.list (found.end + 1)
        × (found.places.items ≡ found.extents.list)) }
    ensures within { IfOk result (λ found. found.end < size) }
    ensures scanned { IfOk result (λ found.
        D.observable → IsScanned found.extents.list found.end ((D.state disk.old).content area)) }
    ensures ahead { OnOk result (D.observable → IsAhead ahead.new ((D.state disk.new).content area)) }
    ensures areas { (a : AreaValue) → LeavesAlone (D.state disk.old) (D.state disk.new) a }
    ensures calls { MakesSome (D.state disk.old) (D.state disk.new) calls.old calls.new }
    ensures faults { CountsFault (D.state disk.old).faults (D.state disk.new).faults (result ≡ Err DiskFailed) }
    ensures unchanged { (index : ℕ) → result ≢ Err (Changed index) }
    ensures read { IfOk result (λ found. raised (D.state disk.old).bytes_read
        (header_length * length found.extents.list) ≤ (D.state disk.new).bytes_read) }
{
    let mut places = Vec::new(alloc);
    let mut extents = Extents::new();
    let mut end = 0;
    'frames: loop {
        let full = places.len() >= PAYLOAD_COUNT_LIMIT;
        if full || size - end <= HEADER_LENGTH {
            return Ok(Scanned {
                places,
                extents,
                end,
            });
        }
        let Some(length) = next_frame(disk, area, end, size, ahead, calls)? else {
            return Ok(Scanned {
                places,
                extents,
                end,
            });
        };
        let place = Extent {
            offset: end + HEADER_LENGTH,
            length,
        };
        places.push(place)?;
        extents = Extents::with(&extents, &place);
        end += u64::from(length) + HEADER_LENGTH;
    }
}
