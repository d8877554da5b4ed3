ghost use Rattle.std.specs.Prelude.{◌≡◌, ◌+◌, ◌<◌, ◌≤◌, ◌++◌, [], length, take, drop, false, true, OnOk, OnErr, IfOk, MatchOption};
ghost use Rattle.atom_values.specs.Ascii.{lf};
ghost use Rattle.atom_values.specs.Counts.{CountsFault, HasCause};
ghost use Rattle.store_commands.specs.Lines.{KnowsEnd, FindsLine, HasNoLf, IsTooLong, StopsAmid, TakesEnd, TakesAll, ReadsMore, IsSpent, allowance, stream, with_prefix};
ghost use Rattle.store_commands.specs.Lines.{ReadsAllowed, read_past};
ghost use Rattle.feed_disk.specs.Raised.{RisesAtMost, raised};
ghost use Rattle.tool_words.specs.Line.{IsFirst};

use crate::line::PREFIX_LIMIT;
use atom_values::{Failed, NoMemory};
use doc_source::Source;
use std::alloc::{AllocError, Global};
use std::marker::Model;

/// How many bytes of lines an input may have.
const INPUT_LIMIT: u64 = 1_073_741_824;

const LF: u8 = b'\n';

/// How many bytes are asked of the input at a time.
const BUFFER: usize = 65_536;

/// Why there is no next line.
#[derive(Clone, Copy)]
pub enum LinesFault {
    /// The input has more than `INPUT_LIMIT` bytes, and all its lines within the limit were given.
    TooLong,
    /// A call on the input failed.
    Input,
    /// Memory ran out.
    NoMemory,
}

impl From<AllocError> for LinesFault {
    ghost use Rattle.std.specs.Prelude.{◌≡◌};
    ghost use Rattle.store_commands.specs.declared.lines.LinesFault.TheVariants.{NoMemory};

    ghost from_gives = { λ _ e. e ≡ NoMemory };

    fn from(_error: AllocError) -> LinesFault {
        LinesFault::NoMemory
    }
}

impl From<Failed> for LinesFault {
    ghost use Rattle.std.specs.Prelude.{◌≡◌};
    ghost use Rattle.store_commands.specs.declared.lines.LinesFault.TheVariants.{Input};

    ghost from_gives = { λ _ e. e ≡ Input };

    fn from(_error: Failed) -> LinesFault {
        LinesFault::Input
    }
}

/// A reader of the lines of an input, which it reads once and in order, a buffer at a time. It keeps a prefix of each
/// line, which is enough to tell a line that is too long, so that its memory doesn't grow with a line.
#[derive(Drop)]
pub struct Lines {
    buffer: Vec<u8>,
    start: usize,
    end: usize,
    line: Vec<u8>,
    allowed: u64,
    ended: bool,
}

impl Model for Lines {
    ghost use Rattle.std.specs.Prelude.{◌≡◌, ◌-◌, ◌≤◌, take, drop, vec_len, length};
    ghost use Rattle.store_commands.specs.Line.{prefix_limit};
    ghost use Rattle.store_commands.specs.Lines.{LinesState, buffer_limit};

    ghost Value = { LinesState };

    ghost view = { λ l. record {
      ahead = take (l.end - l.start) (drop l.start l.buffer.items);
      line = l.line.items;
      allowed = l.allowed;
      ended = l.ended;
    } };

    ghost invariant = { λ l.
        (l.start ≤ l.end) × (l.end ≤ buffer_limit) × (vec_len l.buffer ≡ buffer_limit)
        × (vec_len l.line ≤ prefix_limit) };
}

impl Lines {
    /// A reader before the first line.
    pub fn new(alloc: Global) -> Result<Lines, NoMemory>
        ensures { IfOk result (λ lines.
            (lines.ahead ≡ []) × (lines.allowed ≡ INPUT_LIMIT) × (lines.ended ≡ false)) }
    {
        Ok(Lines {
            buffer: vec![in alloc; 0; BUFFER]?,
            start: 0,
            end: 0,
            line: Vec::with_capacity(alloc, PREFIX_LIMIT)?,
            allowed: INPUT_LIMIT,
            ended: false,
        })
    }

    /// The line that `next` found, without its LF, or the first `PREFIX_LIMIT` bytes of a longer line.
    pub fn line(&self) -> &[u8]
        ensures { result.now ≡ self.now.line }
    {
        self.line.as_slice()
    }

    /// Goes to the next line and returns whether there is one. The last line may end with the input where it isn't
    /// empty.
    ///
    /// `TooLong`: the input has more than `INPUT_LIMIT` bytes, and all lines that lie within the limit were given.
    /// `Input`: a call on the input failed. After an error the reader's state is unspecified.
    ///
    /// One byte past the limit may be read before `TooLong`.
    pub fn next<I: Source>(&mut self, input: &mut I) -> Result<bool, LinesFault>
        requires { I.observable → KnowsEnd self.old (I.state input.old) }
        ensures found { result ≡ Ok true → I.observable
            → FindsLine self.old (I.state input.old) self.new (I.state input.new) }
        ensures progress { result ≡ Ok true → allowance self.new < allowance self.old }
        ensures none { result ≡ Ok false → I.observable → stream self.old (I.state input.old) ≡ [] }
        ensures too_long { result ≡ Err LinesFault.TooLong → I.observable → IsTooLong self.old (I.state input.old) }
        ensures read { ReadsAllowed self.old self.new (read_past result)
            (I.state input.old).bytes_read (I.state input.new).bytes_read }
        ensures input_faults { CountsFault (I.state input.old).faults (I.state input.new).faults
            (result ≡ Err LinesFault.Input) }
        ensures amid { result ≡ Err LinesFault.Input → I.observable
            → StopsAmid self.old (I.state input.old) (I.state input.new) }
        ensures knows { OnOk result (I.observable → KnowsEnd self.new (I.state input.new)) }
    {
        self.clear_line();
        loop {
            if self.take_line()? {
                return Ok(true);
            }
            if !self.fill(input)? {
                return Ok(!self.line().is_empty());
            }
        }
    }

    /// Drops the line that was found.
    fn clear_line(&mut self)
        ensures { self.new ≡ record self.old { line = [] } }
    {
        self.line.clear();
    }

    /// Takes the bytes that were read up to the next LF, or all of them, and returns whether there was an LF.
    fn take_line(&mut self) -> Result<bool, AllocError>
        ensures ended { result ≡ Ok true → TakesEnd self.old self.new }
        ensures all { result ≡ Ok false → TakesAll self.old self.new }
        ensures allowed { self.new.allowed ≡ self.old.allowed }
        ensures end { self.new.ended ≡ self.old.ended }
    {
        let ahead = &self.buffer[self.start..self.end];
        match first_lf(ahead) {
            Some(at) => {
                keep(&mut self.line, &ahead[..at])?;
                self.start += at + 1;
                Ok(true)
            }
            None => {
                keep(&mut self.line, ahead)?;
                self.start = self.end;
                Ok(false)
            }
        }
    }

    /// Reads the next bytes into the buffer, which is used up, and returns whether there were some.
    fn fill<I: Source>(&mut self, input: &mut I) -> Result<bool, LinesFault>
        requires used { self.old.ahead ≡ [] }
        requires knows { I.observable → KnowsEnd self.old (I.state input.old) }
        ensures line { self.new.line ≡ self.old.line }
        ensures more { result ≡ Ok true → ReadsMore self.old self.new }
        ensures bytes { result ≡ Ok true → I.observable
            → (I.state input.old).left ≡ stream self.new (I.state input.new) }
        ensures spent { result ≡ Ok false → allowance self.new ≡ allowance self.old }
        ensures end { result ≡ Ok false → I.observable
            → IsSpent self.new (I.state input.old) (I.state input.new) }
        ensures too_long { result ≡ Err LinesFault.TooLong
            → (self.old.allowed ≡ 0) × (I.observable → 0 < length (I.state input.old).left) }
        ensures read { ReadsAllowed self.old self.new (read_past result)
            (I.state input.old).bytes_read (I.state input.new).bytes_read }
        ensures input_faults { CountsFault (I.state input.old).faults (I.state input.new).faults
            (result ≡ Err LinesFault.Input) }
        ensures amid { result ≡ Err LinesFault.Input → (self.old.ended ≡ false)
            × (I.observable → (I.state input.new).left ≡ (I.state input.old).left) }
        ensures knows { OnOk result (I.observable → KnowsEnd self.new (I.state input.new)) }
    {
        if self.ended {
            return Ok(false);
        }
        let room = self.allowed.min(BUFFER as u64) as usize;
        if room == 0 {
            probe(input)?;
            self.ended = true;
            return Ok(false);
        }
        self.start = 0;
        self.end = 0;
        let count = read_front(input, &mut self.buffer, room)?;
        self.end = count;
        self.allowed -= count as u64;
        self.ended = count == 0;
        Ok(count > 0)
    }
}

/// Reads up to `room` bytes into the start of `buffer`.
pub fn read_front<I: Source>(input: &mut I, buffer: &mut [u8], room: usize) -> Result<usize, Failed>
    requires { room ≤ length buffer.old }
    ensures within { IfOk result (λ count. count ≤ room) }
    ensures bytes { IfOk result (λ count. I.observable
        → (I.state input.old).left ≡ take count buffer.new ++ (I.state input.new).left) }
    ensures end { IfOk result (λ count. I.observable → count ≡ 0 → 0 < room → (I.state input.old).left ≡ []) }
    ensures err { OnErr result (I.observable → (I.state input.new).left ≡ (I.state input.old).left) }
    ensures read { IfOk result (λ count. (I.state input.new).bytes_read
        ≡ raised (I.state input.old).bytes_read count) }
    ensures unread { OnErr result ((I.state input.new).bytes_read ≡ (I.state input.old).bytes_read) }
    ensures counts { HasCause (I.state input.old).faults (I.state input.new).faults result }
{
    input.read(&mut buffer[..room])
}

/// Reads one byte past the limit, to learn whether the input ends there.
fn probe<I: Source>(input: &mut I) -> Result<(), LinesFault>
    ensures end { OnOk result (I.observable → ((I.state input.old).left ≡ []) × ((I.state input.new).left ≡ [])) }
    ensures too_long { result ≡ Err LinesFault.TooLong → I.observable → 0 < length (I.state input.old).left }
    ensures read { RisesAtMost (read_past result) (I.state input.old).bytes_read (I.state input.new).bytes_read }
    ensures input_faults { CountsFault (I.state input.old).faults (I.state input.new).faults
        (result ≡ Err LinesFault.Input) }
    ensures amid { result ≡ Err LinesFault.Input → I.observable
        → (I.state input.new).left ≡ (I.state input.old).left }
{
    match input.read(&mut [0u8; 1])? {
        0 => Ok(()),
        _ => Err(LinesFault::TooLong),
    }
}

/// The offset of the first LF.
fn first_lf(bytes: &[u8]) -> Option<usize>
    ensures { MatchOption result (HasNoLf bytes.now) (λ at. IsFirst lf bytes.now at) }
{
    bytes.iter().position(|b| *b == LF)
}

/// Appends those of the bytes that belong to the prefix of the line.
fn keep(line: &mut Vec<u8>, bytes: &[u8]) -> Result<(), AllocError>
    ensures ok { OnOk result (line.new.items ≡ with_prefix line.old.items bytes.now) }
    ensures err { OnErr result (line.new.items ≡ line.old.items) }
{
    let room = PREFIX_LIMIT.saturating_sub(line.len());
    line.extend_from_slice(&bytes[..room.min(bytes.len())])
}
