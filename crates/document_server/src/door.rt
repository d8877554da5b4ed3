ghost use Rattle.std.specs.Prelude.{◌≡◌, ℕ, ◌<◌, List, None, option_map, IfOk, IfSome, OnOk, OnErr};
ghost use Rattle.atom_values.specs.Counts.{HasCause};
ghost use Rattle.document_server.specs.Door.{DoorState, SameLinks, Gives, with_back};

use atom_values::Failed;
use http_face::Conn;

/// Accepts clients: gives their connections one after the other, and takes each back after it was served.
///
/// A failed call is counted as a fault.
pub trait Door {
    /// A connection with a client.
    type Link: Conn;

    /// Whether contracts can see the connections.
    ghost observable: { Type 0 };

    /// The connections and the count of faults.
    ghost state: { Self → DoorState };

    /// Whether the door listens at an address.
    ghost listens: { Self → List ℕ → Type 0 };

    /// Whether all connections that the door has given came in at an address.
    ghost only_at: { Self → List ℕ → Type 0 };

    /// Listens at an address, which is a host's name or IP address and a port, as `127.0.0.1:8080`. `Failed` if the
    /// call failed.
    fn listen(&mut self, at: &[u8]) -> Result<(), Failed>
        ensures at { OnOk result (listens self.new at.now) }
        ensures only { (at : List ℕ) → only_at self.old at → only_at self.new at }
        ensures same { observable → SameLinks (state self.old) (state self.new) }
        ensures counts { HasCause (state self.old).faults (state self.new).faults result };

    /// Returns the next connection, on which no reply was begun. It came in at an address at which the door listens.
    /// `None` if no connection will come. `Failed` if the call failed.
    fn next(&mut self) -> Result<Option<Self::Link>, Failed>
        ensures at { (at : List ℕ) → listens self.old at → listens self.new at }
        ensures only { (at : List ℕ) → listens self.old at → only_at self.old at → only_at self.new at }
        ensures given { IfOk result (λ given. observable
            → Gives (option_map Self.Link.state given) (state self.old) (state self.new)) }
        ensures unbegun { IfOk result (λ given. IfSome given (λ link. (Self.Link.state link).begun ≡ None)) }
        ensures err { OnErr result (observable → SameLinks (state self.old) (state self.new)) }
        ensures counts { HasCause (state self.old).faults (state self.new).faults result };

    /// Takes back a connection that was served or that failed, and closes it. It takes no memory and doesn't fail. No
    /// more connections are given back than were given.
    fn back(&mut self, link: Self::Link)
        requires { observable → 0 < (state self.old).out }
        ensures at { (at : List ℕ) → listens self.old at → listens self.new at }
        ensures only { (at : List ℕ) → only_at self.old at → only_at self.new at }
        ensures back { observable → state self.new ≡ with_back (state self.old) (Self.Link.state link) }
        ensures faults { (state self.new).faults ≡ (state self.old).faults };

    /// A door whose connections contracts can see gives connections whose bytes they can see.
    ghost tells: { observable → Self.Link.observable };
}
