ghost use Rattle.std.specs.Prelude.{◌≡◌, ◌+◌, ◌≤◌, length, IfOk};
ghost use Rattle.feed_journal.specs.Limits.{payload_limit, header_length};
ghost use Rattle.feed_journal.specs.Records.{tail_of};

use crate::limits::CLOSED_GATE;
use atom_values::NoMemory;
use std::alloc::Global;
use std::marker::Model;

/// A payload of at most 67,108,864 bytes in the form in which it is appended. It is made before the append,
/// which then takes no memory.
#[derive(Debug, Drop)]
pub struct Framed {
    /// The payload's length, the payload, and a closed gate.
    bytes: Vec<u8>,
}

impl Model for Framed {
    ghost use Rattle.std.specs.Prelude.{◌≡◌, List, ℕ, ◌-◌, ◌≤◌, length, take, drop};
    ghost use Rattle.feed_journal.specs.Framed.{payload_of, IsFramed};

    ghost Value = { List ℕ };

    ghost view = { λ f. payload_of f.bytes.items };

    ghost invariant = { λ f. IsFramed f.bytes.items };
}

impl Framed {
    /// Returns the payload in its form, in one allocation.
    pub fn of(alloc: Global, payload: &[u8]) -> Result<Framed, NoMemory>
        requires { length payload.now ≤ payload_limit }
        ensures { IfOk result (λ framed. framed ≡ payload.now) }
    {
        let mut bytes = Vec::with_capacity(alloc, payload.len() + 5)?;
        bytes.extend_from_slice(&(payload.len() as u32).to_be_bytes())?;
        bytes.extend_from_slice(payload)?;
        bytes.push(CLOSED_GATE)?;
        Ok(Framed { bytes })
    }

    /// Returns the number of bytes by which an append makes the log longer: the payload's length plus 5.
    pub fn needed(&self) -> u64
        ensures { result ≡ length self.now + header_length }
    {
        self.bytes.len() as u64
    }

    /// Returns the payload's length.
    pub fn length(&self) -> u32
        ensures count { result ≡ length self.now }
        ensures most { length self.now ≤ payload_limit }
    {
        (self.bytes.len() - 5) as u32
    }

    /// Returns the bytes that an append writes after the closed gate.
    pub fn tail(&self) -> &[u8]
        ensures tail { result.now ≡ tail_of self.now }
        ensures most { length self.now ≤ payload_limit }
    {
        self.bytes.as_slice()
    }
}
