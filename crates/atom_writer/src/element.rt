ghost use Rattle.std.specs.Prelude.{◌≡◌, ◌++◌, OnOk, OnErr, IfSome};
ghost use Rattle.atom_values.specs.XmlText.{IsAtomText};
ghost use Rattle.atom_writer.specs.Parts.{element, optional_element};

use crate::out::Out;
use atom_values::{AtomText, NoMemory};

/// Adds an element that has this text.
pub fn push_element<W: Out>(out: &mut W, tag: &[u8], value: &AtomText) -> Result<(), NoMemory>
    ensures added { OnOk result (W.adds out.old out.new (element tag.now value.now)) }
    ensures failed { OnErr result W.can_fail }
    ensures rules { OnOk result (IsAtomText value.now) }
{
    out.push(b"<")?;
    out.push(tag)?;
    out.push(b">")?;
    out.push_escaped(value, false)?;
    out.push(b"</")?;
    out.push(tag)?;
    out.push(b">")?;
    Ok(())
}

/// Adds the element if it has a value.
#[tactic(auto, unfolding(crate::specs::Parts::optional_element))]
pub fn push_optional_element<W: Out>(
    out: &mut W,
    tag: &[u8],
    value: &Option<AtomText>,
) -> Result<(), NoMemory>
    ensures added { OnOk result (W.adds out.old out.new (optional_element tag.now value.now)) }
    ensures failed { OnErr result W.can_fail }
    ensures rules { OnOk result (IfSome value.now IsAtomText) }
{
    match value {
        Some(value) => push_element(out, tag, value),
        None => Ok(()),
    }
}
