//! The offer that is being read.

ghost use Rattle.std.specs.Prelude.{◌≡◌, ℕ, ◌+◌, ◌-◌, ◌<◌, ◌≤◌, ◌++◌, [], length, take, drop, Ok, Err, None, Some, IfOk, IfErr, IfSome, OnOk, MatchOption};
ghost use Rattle.std.specs.Option.{ForSome};
ghost use Rattle.atom_values.specs.Counts.{CountsFault};
ghost use Rattle.feed_disk.specs.Raised.{RisesAtMost};
ghost use Rattle.doc_source.specs.Intake.{TakesMore};
ghost use Rattle.atom_values.specs.Ascii.{lf};
ghost use Rattle.doc_source.specs.Line.{HasNoLf, IsFirst};
ghost use Rattle.doc_source.specs.Part.{IsPart, IsWhole, IsLineEnd, HasHead, Stays, part_of, part_text, with_part};
ghost use Rattle.doc_source.specs.Pile.{IsAnswer, IsEnd, IsOffer, IsOpen, head_at, offer_text, taken_past};

use crate::fault::PileFault;
use crate::intake::{Filled, Intake};
use crate::line::{begins_line, parse_line};
use crate::offer::Offer;
use crate::outside::Source;
use crate::write::PILE_HEAD;
use atom_values::{Bytes, NoMemory};
use std::alloc::Global;

const LF: u8 = b'\n';

/// An offer whose first line was read. `count` bytes and LF follow the line, and `behind` are those of them that were
/// read so far.
#[derive(Debug, Drop)]
pub(crate) struct Part {
    pub(crate) address: Bytes,
    pub(crate) count: usize,
    pub(crate) behind: Vec<u8>,
}

/// The offer that is read next: the one that was being read, if there is one, and else the next one of the source.
/// `None` at the end of the pile.
pub(crate) fn next_part<S: Source>(
    alloc: Global,
    kept: Option<Part>,
    intake: &mut Intake,
    source: &mut S,
    used: u64,
) -> Result<Option<Part>, PileFault>
    requires rules { ForSome kept IsPart }
    requires sum { used + length (with_part used kept intake.old).ahead ≡ intake.old.taken }
    requires bound { intake.old.taken ≤ intake.old.limit }
    ensures part { IfOk result (λ found. IfSome found IsPart) }
    ensures takes { TakesMore (S.observable × Stays result) (with_part used kept intake.old)
        (with_part used (part_of result) intake.new) (S.state source.old) (S.state source.new) }
    ensures bound { intake.new.taken ≤ intake.new.limit }
    ensures read { RisesAtMost (intake.new.taken - intake.old.taken + taken_past result)
        (S.state source.old).bytes_read (S.state source.new).bytes_read }
    ensures end { result ≡ Ok None → S.observable → IsEnd used intake.old.limit
        ((with_part used kept intake.old).ahead ++ (S.state source.old).left) }
    ensures refused { IfErr result (λ fault. S.observable → IsAnswer used intake.old.limit
        ((with_part used kept intake.old).ahead ++ (S.state source.old).left) (Err fault)) }
    ensures open { result ≡ Err PileFault.SourceFault → IsOpen used intake.new.ahead }
    ensures faults { CountsFault (S.state source.old).faults (S.state source.new).faults
        (result ≡ Err PileFault.SourceFault) }
{
    match kept {
        Some(part) => Ok(Some(part)),
        None => begin(alloc, intake, source, used),
    }
}

/// Reads the first line of the next offer, and before the first offer the first line of the pile. `None` at the end of
/// the pile. The lines stay ahead unless an offer was found.
fn begin<S: Source>(
    alloc: Global,
    intake: &mut Intake,
    source: &mut S,
    used: u64,
) -> Result<Option<Part>, PileFault>
    requires sum { used + length intake.old.ahead ≡ intake.old.taken }
    requires bound { intake.old.taken ≤ intake.old.limit }
    ensures part { IfOk result (λ found. IfSome found IsPart) }
    ensures takes { TakesMore (S.observable × Stays result) intake.old (with_part used (part_of result) intake.new)
        (S.state source.old) (S.state source.new) }
    ensures end { result ≡ Ok None → S.observable → IsEnd used intake.old.limit
        (intake.old.ahead ++ (S.state source.old).left) }
    ensures bound { intake.new.taken ≤ intake.new.limit }
    ensures read { RisesAtMost (intake.new.taken - intake.old.taken + taken_past result)
        (S.state source.old).bytes_read (S.state source.new).bytes_read }
    ensures refused { IfErr result (λ fault. S.observable → IsAnswer used intake.old.limit
        (intake.old.ahead ++ (S.state source.old).left) (Err fault)) }
    ensures open { result ≡ Err PileFault.SourceFault → IsOpen used intake.new.ahead }
    ensures faults { CountsFault (S.state source.old).faults (S.state source.new).faults
        (result ≡ Err PileFault.SourceFault) }
{
    let head = read_head(intake, source, used)?;
    let Some(end) = find_line(intake, source, used, head)? else {
        return Ok(None);
    };
    let ahead = intake.ahead();
    let line = &ahead[head..end];
    let Some(parsed) = parse_line(line) else {
        return Err(bad_offer(used));
    };
    let address = Bytes::of(alloc, &line[..parsed.address_len])?;
    intake.consume(end + 1);
    Ok(Some(Part {
        address,
        count: parsed.count,
        behind: Vec::new(alloc),
    }))
}

/// Reads the first line of the pile if nothing of the pile was used, and returns its length or 0.
fn read_head<S: Source>(intake: &mut Intake, source: &mut S, used: u64) -> Result<usize, PileFault>
    requires sum { used + length intake.old.ahead ≡ intake.old.taken }
    requires bound { intake.old.taken ≤ intake.old.limit }
    ensures len { IfOk result (λ len. len ≡ length (head_at used)) }
    ensures head { OnOk result (HasHead used intake.new.ahead) }
    ensures takes { TakesMore (S.observable × Stays result) intake.old intake.new
        (S.state source.old) (S.state source.new) }
    ensures bound { intake.new.taken ≤ intake.new.limit }
    ensures read { RisesAtMost (intake.new.taken - intake.old.taken + taken_past result)
        (S.state source.old).bytes_read (S.state source.new).bytes_read }
    ensures refused { IfErr result (λ fault. S.observable → IsAnswer used intake.old.limit
        (intake.old.ahead ++ (S.state source.old).left) (Err fault)) }
    ensures open { result ≡ Err PileFault.SourceFault → IsOpen used intake.new.ahead }
    ensures faults { CountsFault (S.state source.old).faults (S.state source.new).faults
        (result ≡ Err PileFault.SourceFault) }
{
    if used > 0 {
        return Ok(0);
    }
    while intake.ahead().len() < PILE_HEAD.len() {
        if !PILE_HEAD.starts_with(intake.ahead()) {
            return Err(PileFault::BadPile { at: 0 });
        }
        match intake.fill(source)? {
            Filled::More => {}
            Filled::End => return Err(PileFault::BadPile { at: 0 }),
            Filled::Limit => {
                return Err(PileFault::TooLong {
                    limit: intake.limit(),
                });
            }
        }
    }
    if intake.ahead().starts_with(PILE_HEAD) {
        Ok(PILE_HEAD.len())
    } else {
        Err(PileFault::BadPile { at: 0 })
    }
}

/// Finds the end of the first line of the next offer, which begins at the index `head` of the bytes ahead. Returns the
/// index of its LF, or `None` if no byte follows.
fn find_line<S: Source>(
    intake: &mut Intake,
    source: &mut S,
    used: u64,
    head: usize,
) -> Result<Option<usize>, PileFault>
    requires sum { used + length intake.old.ahead ≡ intake.old.taken }
    requires bound { intake.old.taken ≤ intake.old.limit }
    requires len { head ≡ length (head_at used) }
    requires head { HasHead used intake.old.ahead }
    ensures found { IfOk result (λ found. IfSome found (IsLineEnd intake.new.ahead head)) }
    ensures takes { TakesMore (S.observable × Stays result) intake.old intake.new
        (S.state source.old) (S.state source.new) }
    ensures end { result ≡ Ok None → S.observable → IsEnd used intake.old.limit
        (intake.old.ahead ++ (S.state source.old).left) }
    ensures bound { intake.new.taken ≤ intake.new.limit }
    ensures read { RisesAtMost (intake.new.taken - intake.old.taken + taken_past result)
        (S.state source.old).bytes_read (S.state source.new).bytes_read }
    ensures refused { IfErr result (λ fault. S.observable → IsAnswer used intake.old.limit
        (intake.old.ahead ++ (S.state source.old).left) (Err fault)) }
    ensures open { result ≡ Err PileFault.SourceFault → IsOpen used intake.new.ahead }
    ensures faults { CountsFault (S.state source.old).faults (S.state source.new).faults
        (result ≡ Err PileFault.SourceFault) }
{
    let mut searched = head;
    loop {
        let ahead = intake.ahead();
        if let Some(end) = next_lf(ahead, searched) {
            return Ok(Some(end));
        }
        searched = ahead.len();
        if !begins_line(&ahead[head..]) {
            return Err(bad_offer(used));
        }
        match intake.fill(source)? {
            Filled::More => {}
            Filled::End => {
                if searched == head {
                    return Ok(None);
                }
                return Err(bad_offer(used));
            }
            Filled::Limit => {
                return Err(PileFault::TooLong {
                    limit: intake.limit(),
                });
            }
        }
    }
}

/// The index of the first LF from `start` on.
fn next_lf(bytes: &[u8], start: usize) -> Option<usize>
    requires { start ≤ length bytes.now }
    ensures { MatchOption result (HasNoLf (drop start bytes.now)) (IsLineEnd bytes.now start) }
{
    let at = first_lf(&bytes[start..])?;
    Some(start + at)
}

/// The index of the first LF.
fn first_lf(bytes: &[u8]) -> Option<usize>
    ensures { MatchOption result (HasNoLf bytes.now) (IsFirst lf bytes.now) }
{
    bytes.iter().position(|byte| *byte == LF)
}

impl Part {
    /// Reads the rest of the offer: its bytes, and the LF after them. `used` is the offset in the pile at which the
    /// offers before this one end.
    pub(crate) fn read_on<S: Source>(
        &mut self,
        intake: &mut Intake,
        source: &mut S,
        used: u64,
    ) -> Result<(), PileFault>
        requires part { IsPart self.old }
        requires sum { used + length (part_text used self.old ++ intake.old.ahead) ≡ intake.old.taken }
        requires bound { intake.old.taken ≤ intake.old.limit }
        ensures part { IsPart self.new }
        ensures whole { OnOk result (IsWhole self.new) }
        ensures takes { TakesMore (S.observable × Stays result) (with_part used (Some self.old) intake.old)
            (with_part used (Some self.new) intake.new) (S.state source.old) (S.state source.new) }
        ensures bound { intake.new.taken ≤ intake.new.limit }
        ensures read { RisesAtMost (intake.new.taken - intake.old.taken + taken_past result)
            (S.state source.old).bytes_read (S.state source.new).bytes_read }
        ensures refused { IfErr result (λ fault. S.observable → IsAnswer used intake.old.limit
            ((part_text used self.old ++ intake.old.ahead) ++ (S.state source.old).left) (Err fault)) }
        ensures open { result ≡ Err PileFault.SourceFault
            → IsOpen used (part_text used self.new ++ intake.new.ahead) }
        ensures faults { CountsFault (S.state source.old).faults (S.state source.new).faults
            (result ≡ Err PileFault.SourceFault) }
    {
        while self.behind.len() <= self.count {
            match intake.fill_if_empty(source)? {
                Filled::More => self.take_from(intake)?,
                Filled::End => return Err(bad_offer(used)),
                Filled::Limit => {
                    return Err(PileFault::TooLong {
                        limit: intake.limit(),
                    });
                }
            }
        }
        if self.behind.ends_with(&[LF]) {
            Ok(())
        } else {
            Err(bad_offer(used))
        }
    }

    /// Moves bytes ahead to the part, as many as belong to it.
    fn take_from(&mut self, intake: &mut Intake) -> Result<(), NoMemory>
        requires part { IsPart self.old }
        requires room { length self.old.behind.items ≤ self.old.count }
        requires some { 0 < length intake.old.ahead }
        ensures part { IsPart self.new }
        ensures line { (self.new.address ≡ self.old.address) × (self.new.count ≡ self.old.count) }
        ensures moved { self.new.behind.items ++ intake.new.ahead
            ≡ self.old.behind.items ++ intake.old.ahead }
        ensures counts { (intake.new.taken ≡ intake.old.taken) × (intake.new.limit ≡ intake.old.limit) }
        ensures grows { OnOk result (length self.old.behind.items < length self.new.behind.items) }
    {
        let ahead = intake.ahead();
        let room = self.count + 1 - self.behind.len();
        let moved = ahead.len().min(room);
        self.behind.extend_from_slice(&ahead[..moved])?;
        intake.consume(moved);
        Ok(())
    }

    /// The offer, when all its bytes were read.
    pub(crate) fn into_offer(self) -> Offer
        requires part { IsPart self }
        requires whole { IsWhole self }
        ensures rules { IsOffer result }
        ensures text { (used : ℕ) → part_text used self ≡ head_at used ++ offer_text result }
    {
        let mut bytes = self.behind;
        bytes.truncate(self.count);
        Offer {
            address: self.address,
            bytes: Bytes::from_vec(bytes),
        }
    }
}

/// The refusal of the next offer, whose line begins after the first line of the pile if nothing of the pile was used.
fn bad_offer(used: u64) -> PileFault
    ensures { result ≡ PileFault.BadPile (used + length (head_at used)) }
{
    PileFault::BadPile {
        at: if used == 0 {
            PILE_HEAD.len() as u64
        } else {
            used
        },
    }
}
