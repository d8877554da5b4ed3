ghost use Rattle.std.specs.Prelude.{◌≡◌, ◌++◌, OnOk, OnErr, IfSome};
ghost use Rattle.atom_values.specs.XmlText.{IsAtomText};
ghost use Rattle.atom_writer.specs.Parts.{attribute, optional_attribute};

use crate::out::Out;
use atom_values::{AtomText, NoMemory};

/// Adds an attribute (XML 1.0, production 41), with a space before it.
pub fn push_attribute<W: Out>(out: &mut W, name: &[u8], value: &AtomText) -> Result<(), NoMemory>
    ensures added { OnOk result (W.adds out.old out.new (attribute name.now value.now)) }
    ensures failed { OnErr result W.can_fail }
    ensures rules { OnOk result (IsAtomText value.now) }
{
    out.push(b" ")?;
    out.push(name)?;
    out.push(b"=\"")?;
    out.push_escaped(value, true)?;
    out.push(b"\"")?;
    Ok(())
}

/// Adds the attribute if it has a value.
#[tactic(auto, unfolding(crate::specs::Parts::optional_attribute))]
pub fn push_optional_attribute<W: Out>(
    out: &mut W,
    name: &[u8],
    value: &Option<AtomText>,
) -> Result<(), NoMemory>
    ensures added { OnOk result (W.adds out.old out.new (optional_attribute name.now value.now)) }
    ensures failed { OnErr result W.can_fail }
    ensures rules { OnOk result (IfSome value.now IsAtomText) }
{
    match value {
        Some(value) => push_attribute(out, name, value),
        None => Ok(()),
    }
}
