//! Takes bytes from a source, in large pieces.

ghost use Rattle.std.specs.Prelude.{◌≡◌, ◌≢◌, ℕ, ◌+◌, ◌-◌, ◌*◌, ◌<◌, ◌≤◌, ◌++◌, [], length, take, drop, IfOk, OnOk, OnErr, Ok};
ghost use Rattle.atom_values.specs.Counts.{HasCause};
ghost use Rattle.feed_disk.specs.Raised.{RisesAtMost, raised};
ghost use Rattle.doc_source.specs.Intake.{buffer_limit, probed, TakesMore};
ghost use Rattle.doc_source.specs.declared.intake.Filled.TheVariants.{More, End, Limit};

use crate::outside::Source;
use atom_values::{Failed, NoMemory};
use std::alloc::Global;
use std::marker::Model;

/// How many bytes are asked of a source at a time.
const BUFFER: usize = 65_536;

/// The outcome of a call that takes more bytes from the source.
#[derive(Clone, Copy, Debug, PartialEq, Eq)]
pub(crate) enum Filled {
    /// Bytes were taken.
    More,
    /// The source has none left.
    End,
    /// As many bytes were taken as the limit allows, and the source has more.
    Limit,
}

/// The bytes that were taken from a source and aren't used yet. It takes at most `limit` bytes in all, and then one
/// byte more to learn whether the source goes on after them.
#[derive(Debug, Drop)]
pub(crate) struct Intake {
    buffer: Vec<u8>,
    start: usize,
    end: usize,
    taken: u64,
    limit: u64,
}

impl Model for Intake {
    ghost use Rattle.std.specs.Prelude.{◌≡◌, ◌-◌, ◌≤◌, take, drop, vec_len, length};
    ghost use Rattle.doc_source.specs.Intake.{IntakeState, buffer_limit};

    ghost Value = { IntakeState };

    ghost view = { λ i. record {
      ahead = take (i.end - i.start) (drop i.start i.buffer.items);
      taken = i.taken;
      limit = i.limit;
    } };

    ghost invariant = { λ i.
        (i.start ≤ i.end) × (i.end ≤ buffer_limit) × (vec_len i.buffer ≡ buffer_limit)
        × (i.taken ≤ i.limit) };
}

impl Intake {
    /// The intake before the first byte.
    pub(crate) fn new(alloc: Global, limit: u64) -> Result<Intake, NoMemory>
        ensures { IfOk result (λ intake. intake ≡ record { ahead = []; taken = 0; limit = limit }) }
    {
        Ok(Intake {
            buffer: vec![in alloc; 0; BUFFER]?,
            start: 0,
            end: 0,
            taken: 0,
            limit,
        })
    }

    /// The bytes that were taken and not used.
    pub(crate) fn ahead(&self) -> &[u8]
        ensures bytes { result.now ≡ self.now.ahead }
        ensures within { self.now.taken ≤ self.now.limit }
    {
        &self.buffer[self.start..self.end]
    }

    /// How many bytes were taken in all.
    pub(crate) fn taken(&self) -> u64
        ensures count { result ≡ self.now.taken }
        ensures within { self.now.taken ≤ self.now.limit }
    {
        self.taken
    }

    /// How many bytes may be taken.
    pub(crate) fn limit(&self) -> u64
        ensures { result ≡ self.now.limit }
    {
        self.limit
    }

    /// Uses the first bytes ahead.
    pub(crate) fn consume(&mut self, count: usize)
        requires { count ≤ length self.old.ahead }
        ensures { self.new ≡ record self.old { ahead = drop count self.old.ahead } }
    {
        self.start += count;
    }

    /// Takes bytes from the source, as many as a call gives and the buffer has room for.
    ///
    /// `Failed`: a call of the source failed, and no byte was taken.
    pub(crate) fn fill<S: Source>(&mut self, source: &mut S) -> Result<Filled, Failed>
        requires room { length self.old.ahead < buffer_limit }
        ensures takes { TakesMore (S.observable × (result ≢ Ok Limit)) self.old self.new
            (S.state source.old) (S.state source.new) }
        ensures bound { self.new.taken ≤ self.new.limit }
        ensures read { RisesAtMost (self.new.taken - self.old.taken + probed result)
            (S.state source.old).bytes_read (S.state source.new).bytes_read }
        ensures more { result ≡ Ok More → length self.old.ahead < length self.new.ahead }
        ensures stays { result ≢ Ok More → self.new ≡ self.old }
        ensures end { result ≡ Ok End → S.observable → (S.state source.old).left ≡ [] }
        ensures limit { result ≡ Ok Limit → self.old.taken ≡ self.old.limit }
        ensures goes_on { result ≡ Ok Limit → S.observable → 0 < length (S.state source.old).left }
        ensures counts { HasCause (S.state source.old).faults (S.state source.new).faults result }
    {
        let allowed = self.limit - self.taken;
        if allowed == 0 {
            return probe(source);
        }
        self.end = move_to_front(&mut self.buffer, self.start, self.end);
        self.start = 0;
        let room = allowed.min((BUFFER - self.end) as u64) as usize;
        let count = read_behind(source, &mut self.buffer, self.end, room)?;
        self.end += count;
        self.taken += count as u64;
        Ok(if count == 0 {
            Filled::End
        } else {
            Filled::More
        })
    }

    /// Takes bytes from the source if none are ahead. `More`: some are ahead.
    ///
    /// `Failed`: a call of the source failed, and no byte was taken.
    pub(crate) fn fill_if_empty<S: Source>(&mut self, source: &mut S) -> Result<Filled, Failed>
        requires { self.old.taken ≤ self.old.limit }
        ensures takes { TakesMore (S.observable × (result ≢ Ok Limit)) self.old self.new
            (S.state source.old) (S.state source.new) }
        ensures bound { self.new.taken ≤ self.new.limit }
        ensures read { RisesAtMost (self.new.taken - self.old.taken + probed result)
            (S.state source.old).bytes_read (S.state source.new).bytes_read }
        ensures more { result ≡ Ok More → 0 < length self.new.ahead }
        ensures empty { result ≢ Ok More → self.old.ahead ≡ [] }
        ensures stays { result ≢ Ok More → self.new ≡ self.old }
        ensures end { result ≡ Ok End → S.observable → (S.state source.old).left ≡ [] }
        ensures limit { result ≡ Ok Limit → self.old.taken ≡ self.old.limit }
        ensures goes_on { result ≡ Ok Limit → S.observable → 0 < length (S.state source.old).left }
        ensures counts { HasCause (S.state source.old).faults (S.state source.new).faults result }
    {
        if self.ahead().is_empty() {
            self.fill(source)
        } else {
            Ok(Filled::More)
        }
    }
}

/// Moves a part of the buffer to its front, and returns the part's length.
fn move_to_front(buffer: &mut [u8], start: usize, end: usize) -> usize
    requires order { start ≤ end }
    requires within { end ≤ length buffer.old }
    ensures count { result ≡ end - start }
    ensures moved { take (end - start) buffer.new ≡ take (end - start) (drop start buffer.old) }
{
    if start > 0 {
        buffer.copy_within(start..end, 0);
    }
    end - start
}

/// Reads at most `room` bytes after the first `filled` bytes of the buffer, and returns how many were read.
fn read_behind<S: Source>(
    source: &mut S,
    buffer: &mut [u8],
    filled: usize,
    room: usize,
) -> Result<usize, Failed>
    requires { filled + room ≤ length buffer.old }
    ensures within { IfOk result (λ count. count ≤ room) }
    ensures before { take filled buffer.new ≡ take filled buffer.old }
    ensures bytes { IfOk result (λ count. S.observable
        → (S.state source.old).left ≡ take count (drop filled buffer.new) ++ (S.state source.new).left) }
    ensures end { IfOk result (λ count. S.observable → count ≡ 0 → 0 < room → (S.state source.old).left ≡ []) }
    ensures err { OnErr result (S.observable → (S.state source.new).left ≡ (S.state source.old).left) }
    ensures read { IfOk result (λ count. (S.state source.new).bytes_read
        ≡ raised (S.state source.old).bytes_read count) }
    ensures unread { OnErr result ((S.state source.new).bytes_read ≡ (S.state source.old).bytes_read) }
    ensures counts { HasCause (S.state source.old).faults (S.state source.new).faults result }
{
    source.read(&mut buffer[filled..filled + room])
}

/// Whether the source has more bytes. One of them is taken and dropped.
fn probe<S: Source>(source: &mut S) -> Result<Filled, Failed>
    ensures decided { result ≢ Ok More }
    ensures end { result ≡ Ok End → S.observable → (S.state source.old).left ≡ [] }
    ensures goes_on { result ≡ Ok Limit → S.observable → 0 < length (S.state source.old).left }
    ensures read { RisesAtMost (probed result) (S.state source.old).bytes_read
        (S.state source.new).bytes_read }
    ensures same { result ≢ Ok Limit → S.observable → (S.state source.new).left ≡ (S.state source.old).left }
    ensures counts { HasCause (S.state source.old).faults (S.state source.new).faults result }
{
    match source.read(&mut [0u8; 1])? {
        0 => Ok(Filled::End),
        _ => Ok(Filled::Limit),
    }
}
