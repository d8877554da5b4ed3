/// The outcome of a connection that was served.
#[derive(Clone, Copy, Debug, PartialEq, Eq)]
pub struct Line {
    /// The status of the reply. 0 if no reply was begun, since the connection failed before.
    pub status: u16,
    /// The number of operations of the history, when the reply was begun or the connection had failed.
    pub version: u32,
    /// How many device calls the store had made since its load began, at the same moment.
    pub calls: u64,
    /// Whether the whole reply was sent. `false` only if a call of the connection failed.
    pub whole: bool,
}
