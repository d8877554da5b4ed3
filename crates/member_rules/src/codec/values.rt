ghost use Rattle.std.specs.Prelude.{◌≡◌, ℤ, Some, IfSome};
ghost use Rattle.atom_values.specs.Stamp.{IsStamp, since_year_zero};

use crate::codec::bytes::{push_bytes, push_size};
use crate::codec::coded::Coded;
use crate::codec::fault::FieldFault;
use crate::codec::unread::Unread;
use atom_values::{AtomText, NoMemory, Stamp, Text, TextKind};
use atom_writer::Out;
use std::alloc::Global;

/// The milliseconds from the first timestamp to the last.
const LAST: u64 = (Stamp::MAX_MILLIS - Stamp::MIN_MILLIS) as u64;

/// The timestamp that is this many milliseconds after the first. `None` if it would be past the last.
fn stamp_since(millis: u64) -> Option<Stamp>
    ensures found { IfSome result (λ stamp. IsStamp stamp × (millis ≡ since_year_zero stamp)) }
    ensures only { (stamp : ℤ) → IsStamp stamp → millis ≡ since_year_zero stamp → result ≡ Some stamp }
{
    if millis > LAST {
        return None;
    }
    Stamp::new(millis as i64 + Stamp::MIN_MILLIS)
}

impl Coded for Stamp {
    ghost use Rattle.member_rules.specs.Fields.{stamp};

    ghost field = { stamp };

    #[tactic(auto, unfolding(crate::specs::Fields::stamp))]
    fn push<W: Out>(&self, out: &mut W) -> Result<(), NoMemory> {
        push_size(out, (self.millis() - Stamp::MIN_MILLIS) as u64)
    }

    fn read(_alloc: Global, unread: &mut Unread) -> Result<Stamp, FieldFault> {
        let mut left = *unread;
        let Some(stamp) = stamp_since(left.size()?) else {
            return Err(FieldFault::Mismatch);
        };
        *unread = left;
        Ok(stamp)
    }

    fn has_one_value() {}
}

impl Coded for AtomText {
    ghost use Rattle.member_rules.specs.Fields.{text};

    ghost field = { text };

    #[tactic(auto, unfolding(crate::specs::Fields::text))]
    fn push<W: Out>(&self, out: &mut W) -> Result<(), NoMemory> {
        push_bytes(out, self.bytes())
    }

    fn read(alloc: Global, unread: &mut Unread) -> Result<AtomText, FieldFault> {
        let mut left = *unread;
        let text = AtomText::of(alloc, left.text()?)?;
        *unread = left;
        Ok(text)
    }

    fn has_one_value() {}
}

impl Coded for TextKind {
    ghost use Rattle.member_rules.specs.Fields.{kind};

    ghost field = { kind };

    #[tactic(auto, unfolding(crate::specs::Fields::kind))]
    fn push<W: Out>(&self, out: &mut W) -> Result<(), NoMemory> {
        match self {
            TextKind::Plain => out.push(&[0]),
            TextKind::Html => out.push(&[1]),
        }
    }

    fn read(_alloc: Global, unread: &mut Unread) -> Result<TextKind, FieldFault> {
        let mut left = *unread;
        let kind = match left.byte()? {
            0 => TextKind::Plain,
            1 => TextKind::Html,
            _ => return Err(FieldFault::Mismatch),
        };
        *unread = left;
        Ok(kind)
    }

    fn has_one_value() {}
}

impl Coded for Text {
    ghost use Rattle.member_rules.specs.Fields.{construct};

    ghost field = { construct };

    #[tactic(auto, unfolding(crate::specs::Fields::kind, crate::specs::Fields::text, crate::specs::Fields::construct))]
    fn push<W: Out>(&self, out: &mut W) -> Result<(), NoMemory> {
        self.kind.push(out)?;
        self.value.push(out)?;
        Ok(())
    }

    fn read(alloc: Global, unread: &mut Unread) -> Result<Text, FieldFault> {
        let mut left = *unread;
        let kind = TextKind::read(alloc, &mut left)?;
        let value = AtomText::read(alloc, &mut left)?;
        *unread = left;
        Ok(Text { kind, value })
    }

    fn has_one_value() {}
}
