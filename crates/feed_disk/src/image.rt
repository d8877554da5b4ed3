ghost use Rattle.std.specs.Prelude.{◌≡◌, ℕ, ◌+◌, ◌-◌, ◌≤◌, min, ◌<◌, ◌^◌, Bool, true, false, ◌++◌};
ghost use Rattle.std.specs.Prelude.{length, take, drop, reverse, replicate, count_by, IfOk, OnOk, OnErr};
ghost use Rattle.feed_disk.specs.Disk.{written};
ghost use Rattle.feed_disk.specs.AreaRecord.{content_of, synced_of, newest_of, IsRecorded};
ghost use Rattle.feed_disk.specs.ImageOf.{counts_by, until, filled, overlaid, marks_of, grown, image_of};
ghost use Rattle.feed_disk.specs.ImageOf.{giving, uses};
ghost use Rattle.feed_disk.specs.Pending.{is_sync, pending_of, settled_of, applied, marked_by, Reaches};

use crate::change::Change;
use crate::choice::Choice;
use crate::overwrite::overwrite;
use atom_values::NoMemory;
use std::alloc::Global;

/// Returns whether the change counts at a crash within this call.
fn counts(change: &Change, call: u64) -> bool
    ensures { result ≡ counts_by call change.now }
{
    match change {
        Change::Write { call: number, .. } | Change::FailedWrite { call: number, .. } => {
            *number <= call
        }
        Change::Sync { call: number } => *number < call,
    }
}

/// Returns how many of the changes count at a crash within this call. They are the first ones.
pub fn count_until(changes: &[Change], call: u64) -> usize
    ensures within { result ≤ length changes.now }
    ensures changes { reverse (take result changes.now) ≡ until call (reverse changes.now) }
{
    let mut count = changes.len();
    while count > 0 && !counts(&changes[count - 1], call) {
        count -= 1;
    }
    count
}

/// Returns whether the change is a sync.
fn is_a_sync(change: &Change) -> bool
    ensures { result ≡ is_sync change.now }
{
    matches!(change, Change::Sync { .. })
}

/// Returns the number of changes up to the last sync, which is counted too.
fn count_settled(changes: &[Change]) -> usize
    ensures within { result ≤ length changes.now }
    ensures settled { reverse (take result changes.now) ≡ settled_of (reverse changes.now) }
    ensures pending { reverse (drop result changes.now) ≡ pending_of (reverse changes.now) }
{
    let mut count = changes.len();
    while count > 0 && !is_a_sync(&changes[count - 1]) {
        count -= 1;
    }
    count
}

/// Returns the bytes that a read gives after these changes.
fn content_after(alloc: Global, first: &[u8], changes: &[Change]) -> Result<Vec<u8>, NoMemory>
    requires { IsRecorded first.now (reverse changes.now) }
    ensures { IfOk result (λ bytes. bytes.items ≡ content_of first.now (reverse changes.now)) }
{
    let mut bytes = Vec::from_slice(alloc, first)?;
    for change in changes {
        if let Change::Write {
            at,
            bytes: from,
            ..
        } = change
        {
            overwrite(&mut bytes, *at as usize, from.slice())?;
        }
    }
    Ok(bytes)
}

/// Makes each of these writes, failed ones included, and marks each byte of their ranges.
fn apply(bytes: &mut Vec<u8>, marks: &mut Vec<bool>, changes: &[Change]) -> Result<(), NoMemory>
    requires reaches { Reaches bytes.old.items (reverse changes.now) }
    requires marks { length marks.old.items ≡ length bytes.old.items }
    ensures bytes { OnOk result (bytes.new.items ≡ applied bytes.old.items (reverse changes.now)) }
    ensures marks { OnOk result (marks.new.items ≡ marked_by marks.old.items (reverse changes.now)) }
{
    for change in changes {
        match change {
            Change::Write {
                at,
                bytes: from,
                ..
            }
            | Change::FailedWrite {
                at,
                bytes: from,
                ..
            } => {
                let at = *at as usize;
                overwrite(bytes, at, from.slice())?;
                mark(marks, at, from.slice().len())?;
            }
            Change::Sync { .. } => {}
        }
    }
    Ok(())
}

/// Marks the range of `count` offsets from `at` on.
fn mark(marks: &mut Vec<bool>, at: usize, count: usize) -> Result<(), NoMemory>
    requires offset { at ≤ length marks.old.items }
    requires fits { at + count < 2 ^ 64 }
    ensures { OnOk result (marks.new.items ≡ written marks.old.items at (replicate count true)) }
{
    let end = at + count;
    let size = marks.len().max(end);
    marks.resize(size, true)?;
    marks[at..end].fill(true);
    Ok(())
}

/// Returns the bytes with `byte` at each marked offset.
fn fill(alloc: Global, bytes: &[u8], marks: &[bool], byte: u8) -> Result<Vec<u8>, NoMemory>
    requires { length marks.now ≡ length bytes.now }
    ensures { IfOk result (λ made. made.items ≡ filled marks.now byte bytes.now) }
{
    let mut made = Vec::new(alloc);
    for (offset, old) in bytes.iter().enumerate() {
        if marks[offset] {
            made.push(byte)?;
        } else {
            made.push(*old)?;
        }
    }
    Ok(made)
}

/// Returns the bytes with the given ones at the marked offsets, in order, and the number of marked offsets.
fn overlay(
    alloc: Global,
    bytes: &[u8],
    marks: &[bool],
    given: &[u8],
) -> Result<(Vec<u8>, usize), NoMemory>
    requires { length marks.now ≡ length bytes.now }
    ensures bytes { IfOk result (λ made. made.0.items ≡ overlaid marks.now given.now bytes.now) }
    ensures used { IfOk result (λ made. made.1 ≡ count_by (λ mark. mark) marks.now) }
{
    let mut made = Vec::new(alloc);
    let mut used = 0;
    for (offset, old) in bytes.iter().enumerate() {
        if marks[offset] {
            made.push(given.get(used).copied().unwrap_or(*old))?;
            used += 1;
        } else {
            made.push(*old)?;
        }
    }
    Ok((made, used))
}

/// Returns the bytes that a read gave at the last sync.
fn old_bytes(alloc: Global, first: &[u8], changes: &[Change]) -> Result<Vec<u8>, NoMemory>
    requires { IsRecorded first.now (reverse changes.now) }
    ensures { IfOk result (λ bytes. bytes.items ≡ synced_of first.now (reverse changes.now)) }
{
    content_after(alloc, first, &changes[..count_settled(changes)])
}

/// The new bytes of an area, a mark at each uncertain one, and the old size.
#[derive(Drop)]
struct Uncertain {
    bytes: Vec<u8>,
    marks: Vec<bool>,
    old_size: usize,
    ghost same_size: { length marks.items ≡ length bytes.items },
    ghost grows: { old_size ≤ length bytes.items },
}

/// Returns the old bytes after each write since the last sync.
fn new_bytes(alloc: Global, first: &[u8], changes: &[Change]) -> Result<Uncertain, NoMemory>
    requires { IsRecorded first.now (reverse changes.now) }
    ensures bytes { IfOk result (λ made. made.bytes.items ≡ newest_of first.now (reverse changes.now)) }
    ensures marks { IfOk result (λ made. made.marks.items
        ≡ marks_of first.now (reverse changes.now) (length (newest_of first.now (reverse changes.now)))) }
    ensures old_size { IfOk result (λ made. made.old_size
        ≡ length (synced_of first.now (reverse changes.now))) }
{
    let mut bytes = old_bytes(alloc, first, changes)?;
    let old_size = bytes.len();
    let mut marks = vec![in alloc; false; old_size]?;
    apply(&mut bytes, &mut marks, &changes[count_settled(changes)..])?;
    Ok(Uncertain {
        bytes,
        marks,
        old_size,
    })
}

/// Returns the image that a crash after these changes leaves by the choice, with `given` as the given bytes,
/// and the number of given bytes that it takes.
pub fn image_by(
    alloc: Global,
    first: &[u8],
    changes: &[Change],
    choice: &Choice,
    given: &[u8],
) -> Result<(Vec<u8>, usize), NoMemory>
    requires { IsRecorded first.now (reverse changes.now) }
    ensures image { IfOk result (λ made. made.0.items
        ≡ image_of first.now (reverse changes.now) (giving choice.now given.now)) }
    ensures used { IfOk result (λ made. made.1 ≡ uses first.now (reverse changes.now) choice.now) }
{
    match choice {
        Choice::Old => Ok((old_bytes(alloc, first, changes)?, 0)),
        Choice::New => {
            let Uncertain { bytes, .. } = new_bytes(alloc, first, changes)?;
            Ok((bytes, 0))
        }
        Choice::Fill(byte) => {
            let made = new_bytes(alloc, first, changes)?;
            Ok((fill(alloc, &made.bytes, &made.marks, *byte)?, 0))
        }
        Choice::Given { size, .. } => given_image(alloc, first, changes, *size, given),
    }
}

/// Returns the image for `Choice::Given`, and the number of uncertain bytes in it.
fn given_image(
    alloc: Global,
    first: &[u8],
    changes: &[Change],
    size: u64,
    given: &[u8],
) -> Result<(Vec<u8>, usize), NoMemory>
    requires { IsRecorded first.now (reverse changes.now) }
    ensures image { IfOk result (λ made. let changes = reverse changes.now in
        let end = grown first.now changes size in
        made.0.items
        ≡ overlaid (marks_of first.now changes end) given.now (take end (newest_of first.now changes))) }
    ensures used { IfOk result (λ made. let changes = reverse changes.now in
        made.1 ≡ count_by (λ mark. mark) (marks_of first.now changes (grown first.now changes size))) }
{
    let made = new_bytes(alloc, first, changes)?;
    let end = end_by(&made, size);
    overlay(alloc, &made.bytes[..end], &made.marks[..end], given)
}

/// Returns the size of the area with `size` bytes past the old end, or with as many as it may have.
fn end_by(made: &Uncertain, size: u64) -> usize
    ensures within { result ≤ length made.now.bytes.items }
    ensures end { result ≡ made.now.old_size + min size (length made.now.bytes.items - made.now.old_size) }
{
    made.old_size + (size as usize).min(made.bytes.len() - made.old_size)
}
