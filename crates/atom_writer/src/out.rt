ghost use Rattle.std.specs.Prelude.{◌≡◌, ◌+◌, ◌<◌, ◌≤◌, ◌^◌, ◌-◌, ◌++◌, ℕ, List, [], length, max, min, OnOk, OnErr, decimal};
ghost use Rattle.atom_values.specs.Escape.{escaped};
ghost use Rattle.atom_values.specs.Stamp as stamp;
ghost use Rattle.atom_values.specs.Stamp.{IsStamp};
ghost use Rattle.atom_values.specs.XmlText.{IsAtomText};
ghost use Rattle.chain_links.specs.Address as address;
ghost use Rattle.chain_links.specs.Address.{IsAddress};
ghost use Rattle.chain_links.specs.Base.{IsBase};
ghost use Rattle.deleted_entries.specs.FeedId.{member_id};

use atom_values::{AtomText, NoMemory, Stamp, escape_into, escaped_len};
use chain_links::{Address, Base};
use deleted_entries::{FeedId, id_of};
use itoa::Buffer;

/// Where a text is written: to a buffer, or to a count of its bytes. So each text is written by one function, and its
/// length is counted by the same function.
///
/// A writing function has the clauses `added`, the bytes that it adds; `failed`, that only a writer that can fail
/// refuses; and `rules`, the rules that the type of its argument keeps, from which lemmas bound the length.
pub trait Out {
    /// The second value is the first with these bytes added.
    ghost adds: { Self → Self → List ℕ → Type 0 };

    /// Adding bytes may fail.
    ghost can_fail: { Type 0 };

    /// Adds the bytes.
    fn push(&mut self, text: &[u8]) -> Result<(), NoMemory>
        ensures added { OnOk result (adds self.old self.new text.now) }
        ensures failed { OnErr result can_fail };

    /// Adds the escaped text, for an attribute if `quoted`.
    fn push_escaped(&mut self, text: &AtomText, quoted: bool) -> Result<(), NoMemory>
        ensures added { OnOk result (adds self.old self.new (escaped quoted text.now)) }
        ensures failed { OnErr result can_fail }
        ensures rules { IsAtomText text.now };

    /// Adds the address of a document of the feed.
    fn push_address(&mut self, base: &Base, to: Address) -> Result<(), NoMemory>
        requires { IsAddress to }
        ensures added { OnOk result (adds self.old self.new (address.printed base.now to)) }
        ensures failed { OnErr result can_fail }
        ensures rules { IsBase base.now };

    /// No bytes are added by adding nothing.
    ghost starts: { (a : Self) → adds a a [] };

    /// Bytes added one after another are added together.
    ghost joins: { (a b c : Self) (s t : List ℕ) → adds a b s → adds b c t → adds a c (s ++ t) };
}

impl Out for Vec<u8> {
    ghost use Rattle.std.proofs.Common.{append-nil, append_assoc, sym, ◌∙◌, ap};

    ghost adds = { λ a b s. b.items ≡ a.items ++ s };

    ghost can_fail = { Unit {0} };

    ghost starts = { λ a. sym (append-nil a.items) };

    ghost joins = { λ a b c s t p q. q ∙ ap (λ (x : List ℕ). x ++ t) p ∙ append_assoc a.items s t };

    fn push(&mut self, text: &[u8]) -> Result<(), NoMemory> {
        self.extend_from_slice(text)?;
        Ok(())
    }

    fn push_escaped(&mut self, text: &AtomText, quoted: bool) -> Result<(), NoMemory> {
        escape_into(self, text, quoted)
    }

    fn push_address(&mut self, base: &Base, to: Address) -> Result<(), NoMemory> {
        // `text` states the base's rules.
        let _rules = base.text();
        base.print_into(self, to)
    }
}

/// A count of the bytes that were added. It stops at the greatest `u64`, which no text of this crate reaches.
#[derive(Clone, Copy, Debug, PartialEq, Eq)]
pub struct Count {
    pub bytes: u64,
}

impl Out for Count {
    ghost use Rattle.std.proofs.Common.{arith, length-append};

    ghost adds = { λ a b s. b.bytes ≡ max a.bytes (min (a.bytes + length s) (2 ^ 64 - 1)) };

    ghost can_fail = { ⊥ };

    ghost starts = { λ a. Prim.omega arith };

    ghost joins = { λ a b c s t p q. Prim.omega (arith, length-append s t) };

    fn push(&mut self, text: &[u8]) -> Result<(), NoMemory> {
        self.bytes = self.bytes.saturating_add(text.len() as u64);
        Ok(())
    }

    fn push_escaped(&mut self, text: &AtomText, quoted: bool) -> Result<(), NoMemory> {
        self.bytes = self.bytes.saturating_add(escaped_len(text, quoted) as u64);
        Ok(())
    }

    fn push_address(&mut self, base: &Base, to: Address) -> Result<(), NoMemory> {
        // `text` states the base's rules.
        let _rules = base.text();
        self.bytes = self.bytes.saturating_add(base.printed_len(to) as u64);
        Ok(())
    }
}

/// Adds the number in decimal.
pub fn push_number<W: Out>(out: &mut W, number: u32) -> Result<(), NoMemory>
    ensures added { OnOk result (W.adds out.old out.new (decimal number)) }
    ensures failed { OnErr result W.can_fail }
    ensures rules { OnOk result (number < 2 ^ 32) }
{
    let mut buffer = Buffer::new();
    out.push(buffer.format(number).as_bytes())?;
    Ok(())
}

/// Adds the printed timestamp.
pub fn push_stamp<W: Out>(out: &mut W, moment: Stamp) -> Result<(), NoMemory>
    ensures added { OnOk result (W.adds out.old out.new (stamp.printed moment)) }
    ensures failed { OnErr result W.can_fail }
    ensures rules { OnOk result (IsStamp moment) }
{
    // `millis` states the timestamp's range.
    let _rules = moment.millis();
    let mut buffer = [0u8; 24];
    let length = moment.print(&mut buffer);
    out.push(&buffer[..length])?;
    Ok(())
}

/// Adds the member's identifier (RFC 4287 section 4.2.6).
pub fn push_id<W: Out>(out: &mut W, feed: &FeedId, number: u32) -> Result<(), NoMemory>
    requires { 1 ≤ number }
    ensures added { OnOk result (W.adds out.old out.new (member_id feed.now number)) }
    ensures failed { OnErr result W.can_fail }
    ensures rules { OnOk result (number < 2 ^ 32) }
{
    let id = id_of(feed, number);
    out.push(&id)?;
    Ok(())
}
