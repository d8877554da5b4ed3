ghost use Rattle.std.specs.Prelude.{◌≡◌, ◌≤◌, ◌≢◌, ◌↔◌, ◌<◌, ◌^◌, ℕ, List, Some, None, All, length, drop, IsSome, IfSome};
ghost use Rattle.std.specs.Int.{from_be_bytes, w32};
ghost use Rattle.deleted_entries.specs.FeedId.{IsFeedId, IsMemberId, version, member_version, feed_text, member_id};
ghost use Rattle.uuid.specs.Text.{parsed};

use atom_values::{Copies, NoMemory};
use std::alloc::Global;
use std::marker::Model;
use uuid::{Builder, Uuid};

/// The version of the members' UUIDs.
const MEMBER_VERSION: u8 = 8;

/// The length of a member's identifier in bytes.
pub const ID_LEN: usize = 45;

/// A feed's identifier, from which those of its members are made: a UUID (RFC 9562) of any version but 8, which is that
/// of the members.
#[derive(Clone, Copy, Debug, PartialEq, Eq)]
pub struct FeedId {
    uuid: Uuid,
}

impl Model for FeedId {
    ghost use Rattle.std.specs.Prelude.{ℕ, List};
    ghost use Rattle.deleted_entries.specs.FeedId.{IsFeedId};

    ghost Value = { List ℕ };

    ghost view = { λ f. f.uuid };

    ghost invariant = { λ f. IsFeedId f.uuid };

    ghost inverse = { λ bytes. record { uuid = bytes } };
}

impl FeedId {
    /// Parses an identifier in one of the forms that `uuid` reads. `None` exactly if the text has none of these forms
    /// or its version is 8.
    pub fn parse(text: &[u8]) -> Option<FeedId>
        ensures value { IfSome result (λ id. parsed text.now ≡ Some id) }
        ensures taken { IsSome result
            ↔ ((bytes : List ℕ) × (parsed text.now ≡ Some bytes) × (version bytes ≢ member_version)) }
    {
        let uuid = Uuid::try_parse_ascii(text).ok()?;
        bytes_fit(uuid.as_bytes());
        if uuid.as_bytes()[6] / 16 == MEMBER_VERSION {
            None
        } else {
            Some(FeedId { uuid })
        }
    }

    /// The identifier of these sixteen bytes (RFC 9562 section 4). `None` exactly if its version is 8.
    pub fn of(bytes: [u8; 16]) -> Option<FeedId>
        ensures found { IfSome result (λ id. (id ≡ bytes) × IsFeedId bytes) }
        ensures refused { result ≡ None → ¬ IsFeedId bytes }
    {
        bytes_fit(&bytes);
        if bytes[6] / 16 == MEMBER_VERSION {
            None
        } else {
            Some(FeedId {
                uuid: Uuid::from_bytes(bytes),
            })
        }
    }

    /// The sixteen bytes (RFC 9562 section 4).
    pub fn bytes(&self) -> [u8; 16]
        ensures bytes { result ≡ self.now }
        ensures rules { IsFeedId self.now }
    {
        bytes_fit(self.uuid.as_bytes());
        *self.uuid.as_bytes()
    }

    /// The identifier's text in lower case with hyphens (RFC 9562 section 4).
    pub fn print(&self) -> [u8; 36]
        ensures text { result ≡ feed_text self.now }
        ensures rules { IsFeedId self.now }
    {
        let mut buffer = [0u8; 36];
        let text = self.uuid.hyphenated().encode_lower(&mut buffer);
        let mut out = [0u8; 36];
        out.copy_from_slice(text.as_bytes());
        out
    }
}

impl Copies for FeedId {
    ghost rules = { IsFeedId };

    fn copy(&self, _alloc: Global) -> Result<FeedId, NoMemory> {
        bytes_fit(self.uuid.as_bytes());
        Ok(FeedId { uuid: self.uuid })
    }
}

// For the proof alone: no clause can say that the bytes of an array fit, and a loop that reads them can. It is compiled
// away.
fn bytes_fit(bytes: &[u8; 16])
    ensures { (length bytes.now ≡ 16) × All (λ b. b < 256) bytes.now }
{
    'bytes: for i in 0..16 {
        // The read tells the proof that the byte is below 256.
        let _ = bytes[i];
    }
}

/// The identifier of the feed's member `number`: `urn:uuid:` and a UUID of version 8 (RFC 9562 section 5.8).
/// No other member of the feed has it.
pub fn id_of(feed: &FeedId, number: u32) -> [u8; ID_LEN]
    requires { 1 ≤ number }
    ensures text { result ≡ member_id feed.now number }
    ensures own { (other : ℕ) → other < 2 ^ 32 → result ≡ member_id feed.now other → other ≡ number }
{
    let f = *feed.uuid.as_bytes();
    let n = number.to_be_bytes();
    let bytes = [
        f[0], f[1], f[2], f[3], f[4], f[5], f[6], f[7], 0, 0, 0, 0, n[0], n[1], n[2], n[3],
    ];
    let uuid = Builder::from_custom_bytes(bytes).into_uuid();
    let mut buffer = [0u8; ID_LEN];
    let text = uuid.urn().encode_lower(&mut buffer);
    let mut id = [0u8; ID_LEN];
    id.copy_from_slice(text.as_bytes());
    id
}

/// The number of the feed's member that has this identifier. `None` exactly if `id_of` makes the text for no number of
/// this feed.
pub fn number_of(feed: &FeedId, id: &[u8]) -> Option<u32>
    ensures { (number : ℕ) → (result ≡ Some number) ↔ IsMemberId feed.now number id.now }
{
    // The read brings the feed's invariant into the proof.
    let _ = &feed.uuid;
    let uuid = Uuid::try_parse_ascii(id).ok()?;
    let number = last_number(&uuid);
    if number >= 1 && id_of(feed, number).as_slice() == id {
        Some(number)
    } else {
        None
    }
}

/// The number in the last 32 bits of a UUID.
fn last_number(uuid: &Uuid) -> u32
    ensures { result ≡ from_be_bytes w32 (drop 12 uuid.now) }
{
    let f = *uuid.as_bytes();
    u32::from_be_bytes([f[12], f[13], f[14], f[15]])
}
