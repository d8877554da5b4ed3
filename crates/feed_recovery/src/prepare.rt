ghost use Rattle.std.specs.Prelude.{◌≡◌, ◌+◌, ℕ, false, List, [], ◌∷◌, ◌++◌, length, Option, IfOk, IfErr, OnOk};
ghost use Rattle.std.specs.Prelude.{◌<◌, OnErr};
ghost use Rattle.atom_writer.specs.Pieced.{text_of};
ghost use Rattle.feed_journal.specs.Limits.{header_length};
ghost use Rattle.feed_journal.specs.Log.{IsLog};
ghost use Rattle.feed_recovery.specs.Prepare.{Fits, HasRoom, KeepsRoom, IsDueSeal, IsPrepareFault, MayCommit};
ghost use Rattle.feed_recovery.specs.Prepare.{IsFullFault, SealFits, decision_of};
ghost use Rattle.feed_recovery.specs.Store.{is_spent};
ghost use Rattle.member_rules.specs.Coding.{operations};
ghost use Rattle.member_rules.specs.History.{IsLawful, history_limit};
ghost use Rattle.member_rules.specs.Operation.{number_of};
ghost use Rattle.member_rules.specs.declared.operation.Op.{Op as Operation};

use crate::fault::PrepareFault;
use crate::store::Store;
use atom_values::NoMemory;
use atom_writer::write_doc;
use feed_disk::Area;
use feed_journal::Framed;
use member_rules::{Ask, Op, decide, op_bytes};
use std::marker::Model;

/// An operation that was prepared, with all that [`Store::commit`] writes for it.
#[derive(Debug, Drop)]
pub struct Ready {
    pub(crate) operation: Op,
    pub(crate) version: u32,
    /// The operation in the form in which it is appended to the journal.
    pub(crate) payload: Framed,
    /// The seal that is appended before it, where one is due and missing.
    pub(crate) seal: Option<Framed>,
}

impl Model for Ready {
    ghost use Rattle.std.specs.Prelude.{◌≡◌};
    ghost use Rattle.atom_writer.specs.Pieced.{text_of};
    ghost use Rattle.member_rules.specs.Coding.{operations};
    ghost use Rattle.feed_recovery.specs.Prepare.{ReadyValue};

    ghost Value = { ReadyValue };

    ghost view = { λ r. record { operation = r.operation; version = r.version; seal = r.seal } };

    ghost invariant = { λ r. r.payload ≡ text_of operations r.operation };
}

impl Ready {
    /// Returns the number of the member that the operation names.
    pub fn number(&self) -> u32
        ensures { result ≡ number_of self.now.operation }
    {
        self.operation.number()
    }

    /// Returns the version that the commit makes.
    pub fn version(&self) -> u32
        ensures { result ≡ self.now.version }
    {
        self.version
    }

    /// Returns the operation.
    pub fn op(&self) -> &Op
        ensures { result.now ≡ self.now.operation }
    {
        &self.operation
    }
}

impl Store {
    /// Decides what a request becomes, with the clock at `now` milliseconds since 1970, and takes all the memory
    /// that its commit needs. It makes no device call, and the store stays as it is but for its room.
    ///
    /// The error is the first of these that fits:
    ///
    /// - `Rule`: the rules of the feed refuse the request.
    /// - `Full`: the seal that is due and missing has no room within the head's capacity.
    /// - `Full`: the operation has no room within it.
    ///
    /// Out of memory (`NoMemory`) may come before each.
    pub fn prepare(&mut self, ask: Ask, now: u64) -> Result<Ready, PrepareFault>
        requires { is_spent self.old ≡ false }
        ensures decided { IfOk result (λ ready. decision_of self.old ask now ≡ Ok ready.operation) }
        ensures commits { IfOk result (λ ready. MayCommit self.new ready) }
        ensures room { OnOk result (HasRoom self.new) }
        ensures kept { KeepsRoom self.old self.new }
        // The sizes of the two logs are those of their payloads.
        ensures logs { IsLog self.old.journal × IsLog self.old.seals }
        ensures refused { IfErr result (IsPrepareFault self.old ask now) }
        ensures same { self.new ≡ record self.old {
          members = record self.old.members { spare = self.new.members.spare };
          journal = record self.old.journal { spare = self.new.journal.spare };
          seals = record self.old.seals { spare = self.new.seals.spare };
          spare = self.new.spare;
        } }
    {
        if let Err(NoMemory) = self.make_room() {
            drop(ask);
            return Err(PrepareFault::NoMemory);
        }
        let operation = decide(&self.members, &self.head.name, ask, now)?;
        self.ready(operation)
    }

    /// Returns the operation with all that its commit writes, if both areas have room for it.
    fn ready(&self, operation: Op) -> Result<Ready, PrepareFault>
        requires unspent { is_spent self.now ≡ false }
        requires lawful { IsLawful self.now.head (self.now.history ++ operation ∷ []) }
        ensures operation { IfOk result (λ ready. ready.operation ≡ operation) }
        ensures commits { IfOk result (λ ready. MayCommit self.now ready) }
        ensures refused { IfErr result (IsFullFault self.now operation) }
    {
        let seal = match self.fitting_seal() {
            Ok(seal) => seal,
            Err(fault) => {
                drop(operation);
                return Err(fault);
            }
        };
        let payload = match self.fitting_payload(&operation) {
            Ok(payload) => payload,
            Err(fault) => {
                drop(operation);
                drop(seal);
                return Err(fault);
            }
        };
        Ok(Ready {
            operation,
            version: self.version() + 1,
            payload,
            seal,
        })
    }

    /// Returns the seal that is due and missing, if there is one. Refuses by `Full` one for which the sealed area
    /// has no room.
    fn fitting_seal(&self) -> Result<Option<Framed>, PrepareFault>
        requires { is_spent self.now ≡ false }
        ensures due { IfOk result (IsDueSeal self.now) }
        ensures fits { IfOk result (SealFits self.now) }
        ensures refused { (operation : Operation) → IfErr result (IsFullFault self.now operation) }
    {
        let Some(seal) = self.due_seal()? else {
            return Ok(None);
        };
        let capacity = self.head.capacity;
        if !self.seals.fits(&seal, capacity) {
            return Err(full(Area::Sealed, self.seals.size(), &seal, capacity));
        }
        Ok(Some(seal))
    }

    /// Returns the payload of the operation. Refuses by `Full` one for which the journal has no room.
    fn fitting_payload(&self, operation: &Op) -> Result<Framed, PrepareFault>
        requires unspent { is_spent self.now ≡ false }
        requires seal { (seal : Option (List ℕ)) → IsDueSeal self.now seal → SealFits self.now seal }
        ensures payload { IfOk result (λ payload. payload ≡ text_of operations operation.now) }
        ensures fits { IfOk result (λ payload. Fits self.now.journal payload self.now.head.capacity) }
        ensures refused { IfErr result (IsFullFault self.now operation.now) }
    {
        let bytes = op_bytes(self.alloc, operation)?;
        let payload = Framed::of(self.alloc, bytes.as_slice())?;
        let capacity = self.head.capacity;
        if !self.journal.fits(&payload, capacity) {
            return Err(full(Area::Journal, self.journal.size(), &payload, capacity));
        }
        Ok(payload)
    }

    /// Returns the seal that is due and missing, if there is one.
    fn due_seal(&self) -> Result<Option<Framed>, NoMemory>
        requires { is_spent self.now ≡ false }
        ensures { IfOk result (IsDueSeal self.now) }
    {
        if !self.is_seal_missing() {
            return Ok(None);
        }
        let document = self.window.archive(&self.head)?;
        let written = write_doc(self.alloc, &document);
        drop(document);
        let text = written?;
        Ok(Some(Framed::of(self.alloc, text.as_slice())?))
    }

    /// Takes the memory that the commit of one operation needs.
    fn make_room(&mut self) -> Result<(), NoMemory>
        requires { is_spent self.old ≡ false }
        ensures few { length self.old.history < history_limit }
        ensures logs { IsLog self.old.journal × IsLog self.old.seals }
        ensures room { OnOk result (HasRoom self.new) }
        ensures kept { KeepsRoom self.old self.new }
        ensures same { self.new ≡ record self.old {
          members = record self.old.members { spare = self.new.members.spare };
          journal = record self.old.journal { spare = self.new.journal.spare };
          seals = record self.old.seals { spare = self.new.seals.spare };
          spare = self.new.spare;
        } }
    {
        // The rules of the two logs bound the number of operations. Only these calls tell them.
        let _ = (self.journal.size(), self.seals.size());
        self.window.prepare()?;
        self.members.prepare()?;
        self.places.prepare()?;
        self.seals.reserve()
    }
}

/// The refusal of a payload for which an area of this size has no room.
fn full(area: Area, size: u64, framed: &Framed, capacity: u64) -> PrepareFault
    ensures { result ≡ PrepareFault.Full area size (length framed.now + header_length) capacity }
{
    PrepareFault::Full {
        area,
        size,
        needed: framed.needed(),
        capacity,
    }
}
