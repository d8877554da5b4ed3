/// The greatest length of a payload.
pub const PAYLOAD_LIMIT: u32 = 67_108_864;

/// The greatest number of payloads of an area.
pub const PAYLOAD_COUNT_LIMIT: usize = 4_294_967_294;

/// The length of a frame's header: its gate, and the payload's length in 4 bytes.
pub const HEADER_LENGTH: u64 = 5;

/// The size of the smallest area with a payload.
pub const LEAST_SIZE: u64 = 6;

/// The gate of a frame.
pub const OPEN_GATE: u8 = 1;

/// A gate that an append writes. Every byte but `OPEN_GATE` is a closed one.
pub const CLOSED_GATE: u8 = 0;
