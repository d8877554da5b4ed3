ghost use Rattle.std.specs.Prelude.{◌≡◌, ◌++◌, ◌∷◌, [], IfOk, OnOk, decimal};
ghost use Rattle.atom_values.specs.Ascii.{lf};
ghost use Rattle.feed_drill.specs.Summary.{summary_text};
ghost use Rattle.hex.specs.Hex.{encode_lower};

use atom_values::NoMemory;
use feed_life::Life;
use hex::encode_to_slice;
use itoa::Buffer;
use std::alloc::Global;
use std::marker::Model;

/// The numbers of a life that had a drill.
#[derive(Debug, Drop)]
pub struct Summary {
    /// The number of turns.
    pub operations: u32,
    /// The number of operations of the store's history.
    pub version: u32,
    /// The number of sealed archives.
    pub archives: u32,
    /// How many requests had a crash.
    pub stops: u64,
    /// How many offers had a crash.
    pub mirror_stops: u64,
    /// The version of the mirror, which is complete.
    pub complete: u32,
    /// The number of live entries that the mirror shows.
    pub live_count: u32,
    /// The SHA-256 digest of their member documents, joined in order of number.
    pub live_digest: [u8; 32],
}

impl Model for Summary {
    ghost use Rattle.feed_drill.specs.Summary.{SummaryValue};

    ghost Value = { SummaryValue };

    ghost view = { λ s. record {
      operations = s.operations;
      version = s.version;
      archives = s.archives;
      stops = s.stops;
      mirror_stops = s.mirror_stops;
      complete = s.complete;
      live_count = s.live_count;
      live_digest = s.live_digest;
    } };
}

/// A life that had a drill.
#[derive(Debug, Drop)]
pub struct Drill {
    /// The life, after the certificate of its mirror was made.
    pub life: Life,
    /// The numbers of that life.
    pub summary: Summary,
}

/// The digits of a digest, in lower case.
fn digits_of(digest: &[u8; 32]) -> [u8; 64]
    ensures { result ≡ encode_lower digest.now }
{
    let mut digits = [0; 64];
    // The room is exactly that of the digits, so this can't fail.
    let _ = encode_to_slice(digest.as_slice(), &mut digits);
    digits
}

/// Appends a word and a number.
fn push_numbered(text: &mut Vec<u8>, word: &[u8], number: u64) -> Result<(), NoMemory>
    ensures { OnOk result (text.new.items ≡ text.old.items ++ (word.now ++ decimal number)) }
{
    text.extend_from_slice(word)?;
    text.extend_from_slice(Buffer::new().format(number).as_bytes())?;
    Ok(())
}

/// Appends a line of a word and a number.
fn push_line(text: &mut Vec<u8>, word: &[u8], number: u64) -> Result<(), NoMemory>
    ensures { OnOk result (text.new.items ≡ text.old.items ++ (word.now ++ decimal number ++ lf ∷ [])) }
{
    push_numbered(text, word, number)?;
    text.push(b'\n')?;
    Ok(())
}

impl Summary {
    /// Returns the lines of the summary. `NoMemory` if there is no memory for them.
    pub fn print(&self, alloc: Global) -> Result<Vec<u8>, NoMemory>
        ensures { IfOk result (λ text. text.items ≡ summary_text self.now) }
    {
        let mut text = Vec::new(alloc);
        push_line(&mut text, b"operations ", u64::from(self.operations))?;
        push_line(&mut text, b"version ", u64::from(self.version))?;
        push_line(&mut text, b"archives ", u64::from(self.archives))?;
        push_line(&mut text, b"stops ", self.stops)?;
        push_line(&mut text, b"mirror stops ", self.mirror_stops)?;
        push_numbered(&mut text, b"complete ", u64::from(self.complete))?;
        push_line(&mut text, b" ", u64::from(self.live_count))?;
        text.extend_from_slice(b"live ")?;
        text.extend_from_slice(digits_of(&self.live_digest).as_slice())?;
        text.push(b'\n')?;
        Ok(text)
    }
}
