//! A source of bytes and a sink of bytes, as traits.

ghost use Rattle.std.specs.Prelude.{◌≡◌, ℕ, ◌+◌, ◌≤◌, ◌<◌, ◌++◌, [], length, take, drop, IfOk, OnErr};
ghost use Rattle.atom_values.specs.Counts.{HasCause};
ghost use Rattle.feed_disk.specs.Raised.{raised};
ghost use Rattle.doc_source.specs.Outside.{SourceState, SinkState};

use atom_values::Failed;

/// An input that is read once, from its beginning.
pub trait Source {
    /// Whether contracts can see the bytes that are left.
    ghost observable: { Type 0 };

    /// The bytes that are left, and the counts of faults and of bytes read. Every source counts the bytes.
    ghost state: { Self → SourceState };

    /// Reads bytes into the start of `into` and returns how many. A buffer that isn't empty gets none only at the
    /// end.
    ///
    /// `Failed`: the call failed. It is counted as a fault, and no byte is taken.
    fn read(&mut self, into: &mut [u8]) -> Result<usize, Failed>
        ensures within { IfOk result (λ count. count ≤ length into.old) }
        ensures bytes { IfOk result (λ count. observable
            → (state self.old).left ≡ take count into.new ++ (state self.new).left) }
        ensures end { IfOk result (λ count. observable → count ≡ 0 → 0 < length into.old
            → (state self.old).left ≡ []) }
        ensures err { OnErr result (observable → (state self.new).left ≡ (state self.old).left) }
        ensures read { IfOk result (λ count. (state self.new).bytes_read
            ≡ raised (state self.old).bytes_read count) }
        ensures unread { OnErr result ((state self.new).bytes_read ≡ (state self.old).bytes_read) }
        ensures counts { HasCause (state self.old).faults (state self.new).faults result };
}

/// An output.
pub trait Sink {
    /// Whether contracts can see the bytes that were taken.
    ghost observable: { Type 0 };

    /// The bytes that were taken, and the count of faults.
    ghost state: { Self → SinkState };

    /// Takes bytes from the start of `from` and returns how many: at least one unless `from` is empty.
    ///
    /// `Failed`: the call failed. It is counted as a fault, and no byte is taken.
    fn write(&mut self, from: &[u8]) -> Result<usize, Failed>
        ensures within { IfOk result (λ count. count ≤ length from.now) }
        ensures some { IfOk result (λ count. 0 < length from.now → 0 < count) }
        ensures bytes { IfOk result (λ count. observable
            → (state self.new).taken ≡ (state self.old).taken ++ take count from.now) }
        ensures err { OnErr result (observable → (state self.new).taken ≡ (state self.old).taken) }
        ensures counts { HasCause (state self.old).faults (state self.new).faults result };
}
