ghost use Rattle.std.specs.Prelude.{◌≡◌, ◌≢◌, ℕ, List, ◌∷◌, false, IsTrue};
ghost use Rattle.std.specs.Int.{to_be_bytes, w32, w64};
ghost use Rattle.member_rules.specs.Fields.{Reads, ReadsAs, byte, bytes_of_text, number, size};

use crate::codec::fault::FieldFault;

/// The unread bytes. Each method that returns an error leaves them as they were.
#[derive(Clone, Copy)]
pub(crate) struct Unread<'a> {
    pub(crate) rest: &'a [u8],
}

impl<'a> Unread<'a> {
    /// Whether this byte is next. If it is, it is consumed.
    pub(crate) fn tag(&mut self, tag: u8) -> bool
        ensures next { IsTrue result → self.old.rest.now ≡ tag ∷ self.new.rest.now }
        ensures left { result ≡ false → self.new.rest.now ≡ self.old.rest.now }
        ensures other { result ≡ false → (after : List ℕ) → self.old.rest.now ≢ tag ∷ after }
    {
        match self.rest.split_first() {
            Some((first, rest)) if *first == tag => {
                self.rest = rest;
                true
            }
            _ => false,
        }
    }

    /// Reads a byte.
    #[tactic(auto, unfolding(crate::specs::Fields::byte))]
    pub(crate) fn byte(&mut self) -> Result<u8, FieldFault>
        ensures { Reads byte self.old.rest.now result self.new.rest.now }
    {
        let Some((first, rest)) = self.rest.split_first() else {
            return Err(FieldFault::Mismatch);
        };
        self.rest = rest;
        Ok(*first)
    }

    /// Reads a number of 4 bytes, most significant byte first.
    pub(crate) fn number(&mut self) -> Result<u32, FieldFault>
        ensures { Reads number self.old.rest.now result self.new.rest.now }
    {
        let Some((bytes, rest)) = self.rest.split_first_chunk::<4>() else {
            return Err(FieldFault::Mismatch);
        };
        self.rest = rest;
        Ok(number_of(*bytes))
    }

    /// Reads a number of 8 bytes, most significant byte first.
    pub(crate) fn size(&mut self) -> Result<u64, FieldFault>
        ensures { Reads size self.old.rest.now result self.new.rest.now }
    {
        let Some((bytes, rest)) = self.rest.split_first_chunk::<8>() else {
            return Err(FieldFault::Mismatch);
        };
        self.rest = rest;
        Ok(size_of(*bytes))
    }

    /// Reads the bytes of a text after their number, whatever they are.
    pub(crate) fn text(&mut self) -> Result<&'a [u8], FieldFault>
        ensures { ReadsAs (λ text. text.now) bytes_of_text self.old.rest.now result self.new.rest.now }
    {
        let mut left = *self;
        let length = left.number()?;
        let Some((text, rest)) = left.rest.split_at_checked(length as usize) else {
            return Err(FieldFault::Mismatch);
        };
        self.rest = rest;
        Ok(text)
    }
}

/// The number that these bytes spell.
fn number_of(bytes: [u8; 4]) -> u32
    ensures { to_be_bytes w32 result ≡ bytes }
{
    let [a, b, c, d] = bytes;
    u32::from_be_bytes([a, b, c, d])
}

/// The number that these bytes spell.
fn size_of(bytes: [u8; 8]) -> u64
    ensures { to_be_bytes w64 result ≡ bytes }
{
    let [a, b, c, d, e, f, g, h] = bytes;
    u64::from_be_bytes([a, b, c, d, e, f, g, h])
}
