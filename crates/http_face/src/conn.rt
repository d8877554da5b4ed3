ghost use Rattle.std.specs.Prelude.{◌≡◌, ◌≤◌, ◌<◌, ◌++◌, None, Some, [], length, take, IfOk, OnErr, IsSome};
ghost use Rattle.atom_values.specs.Counts.{HasCause, counted};
ghost use Rattle.feed_disk.specs.Raised.{raised};
ghost use Rattle.http_face.specs.Conn.{ConnState, Reads, Writes};

use atom_values::Failed;
use feed_disk::Disk;

/// A connection with a client or a server. With a client, a request is read from it and then a reply is
/// written to it. With a server, a response is read from it.
///
/// A failed call is counted as a fault, and takes no byte.
pub trait Conn {
    /// Whether contracts can see the bytes that are left and those that were sent.
    ghost observable: { Type 0 };

    /// The bytes, the counts of faults, reads and bytes read, and whether the reply was begun. Every connection
    /// counts its reads.
    ghost state: { Self → ConnState };

    /// Reads bytes into the start of `into` and returns how many. If `into` isn't empty, it returns 0 only at the end
    /// of the bytes. `Failed` if the call failed.
    fn read(&mut self, into: &mut [u8]) -> Result<usize, Failed>
        ensures within { IfOk result (λ count. count ≤ length into.old) }
        ensures bytes { IfOk result (λ count. observable
            → (state self.old).left ≡ take count into.new ++ (state self.new).left) }
        ensures end { IfOk result (λ count. observable → count ≡ 0 → 0 < length into.old
            → (state self.old).left ≡ []) }
        ensures err { OnErr result (observable → (state self.new).left ≡ (state self.old).left) }
        ensures read { IfOk result (λ count. (state self.new).bytes_read
            ≡ raised (state self.old).bytes_read count) }
        ensures unread { OnErr result ((state self.new).bytes_read ≡ (state self.old).bytes_read) }
        ensures called { (state self.new).reads ≡ counted (state self.old).reads }
        ensures before { observable → (state self.new).before_read ≡ (state self.old).left }
        ensures reads { Reads (state self.old) (state self.new) }
        ensures counts { HasCause (state self.old).faults (state self.new).faults result };

    /// Marks the beginning of the reply: the connection keeps how many device calls the disk has made. So a contract
    /// can say what was on the disk when a reply began. It takes no memory, doesn't fail, and isn't numbered among the
    /// calls of a connection in memory.
    fn begin<D: Disk>(&mut self, disk: &D)
        requires { (state self.old).begun ≡ None }
        ensures { state self.new ≡ record (state self.old) { begun = Some (D.state disk.now).clock } };

    /// Sends bytes from the start of `from` and returns how many, at least one unless `from` is empty. `Failed` if the
    /// call failed. The reply has to be begun.
    fn write(&mut self, from: &[u8]) -> Result<usize, Failed>
        requires { IsSome (state self.old).begun }
        ensures within { IfOk result (λ count. count ≤ length from.now) }
        ensures some { IfOk result (λ count. 0 < length from.now → 0 < count) }
        ensures bytes { IfOk result (λ count. observable
            → (state self.new).sent ≡ (state self.old).sent ++ take count from.now) }
        ensures err { OnErr result (observable → (state self.new).sent ≡ (state self.old).sent) }
        ensures writes { Writes (state self.old) (state self.new) }
        ensures counts { HasCause (state self.old).faults (state self.new).faults result };
}
