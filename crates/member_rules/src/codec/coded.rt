ghost use Rattle.std.specs.Prelude.{OnOk, OnErr};
ghost use Rattle.member_rules.specs.Fields.{Field, HasOneValue, Reads};

use crate::codec::fault::FieldFault;
use crate::codec::unread::Unread;
use atom_values::NoMemory;
use atom_writer::Out;
use std::alloc::Global;

/// A type whose values have bytes of their own.
pub(crate) trait Coded {
    /// The rules that the type keeps, and the bytes of each value.
    ghost field: { Field Self };

    /// Adds the bytes of the value.
    fn push<W: Out>(&self, out: &mut W) -> Result<(), NoMemory>
        ensures added { OnOk result (W.adds out.old out.new (field.bytes self.now)) }
        ensures failed { OnErr result W.can_fail }
        ensures rules { OnOk result (field.Is self.now) };

    /// Reads a value. An error leaves the unread bytes as they were.
    fn read(alloc: Global, unread: &mut Unread) -> Result<Self, FieldFault>
        ensures { Reads field unread.old.rest.now result unread.new.rest.now };

    // For the proof alone, and compiled away: a law of a trait can't cite lemmas of its own crate, so this is the
    // clause of a call.
    fn has_one_value()
        ensures { HasOneValue field };
}

impl<T: Coded + Drop> Coded for Option<T> {
    ghost use Rattle.member_rules.specs.Fields.{optional};

    ghost field = { optional T.field };

    #[tactic(auto, unfolding(crate::specs::Fields::optional))]
    fn push<W: Out>(&self, out: &mut W) -> Result<(), NoMemory> {
        match self {
            None => out.push(&[0]),
            Some(value) => {
                out.push(&[1])?;
                value.push(out)?;
                Ok(())
            }
        }
    }

    fn read(alloc: Global, unread: &mut Unread) -> Result<Option<T>, FieldFault> {
        let mut left = *unread;
        match left.byte()? {
            0 => {
                *unread = left;
                Ok(None)
            }
            1 => {
                let value = T::read(alloc, &mut left)?;
                *unread = left;
                Ok(Some(value))
            }
            _ => Err(FieldFault::Mismatch),
        }
    }

    fn has_one_value() {
        T::has_one_value();
    }
}
