ghost use Rattle.std.specs.Prelude.{◌≤◌};
ghost use Rattle.http_face.specs.declared.waiting.TheConstants.{ROOM};

/// The bytes of the buffer.
pub(crate) const ROOM: usize = 2_048;

/// The part of a reply that waits in a buffer, and how many bytes before it were sent.
#[derive(Drop)]
pub(crate) struct Waiting {
    pub(crate) buffer: [u8; ROOM],
    pub(crate) filled: usize,
    pub(crate) sent: u64,
    ghost in_range: { filled ≤ ROOM },
}
