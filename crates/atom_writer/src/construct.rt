ghost use Rattle.std.specs.Prelude.{◌≡◌, ◌++◌, OnOk, OnErr, IfSome};
ghost use Rattle.atom_values.specs.Entry.{IsText};
ghost use Rattle.atom_writer.specs.Entries.{open_attributes, construct, optional_construct};

use crate::out::Out;
use atom_values::{NoMemory, Text, TextKind};

/// The attribute of a text construct that states its kind (RFC 4287 section 3.1.1), with a space before it. Plain
/// text has none.
fn open_attributes(kind: TextKind) -> &'static [u8]
    ensures { result.now ≡ open_attributes kind }
{
    match kind {
        TextKind::Plain => b"",
        TextKind::Html => b" type=\"html\"",
    }
}

/// Adds a text construct (RFC 4287 section 3.1) in an element of this tag.
pub fn push_construct<W: Out>(out: &mut W, tag: &[u8], text: &Text) -> Result<(), NoMemory>
    ensures added { OnOk result (W.adds out.old out.new (construct tag.now text.now)) }
    ensures failed { OnErr result W.can_fail }
    ensures rules { OnOk result (IsText text.now) }
{
    out.push(b"<")?;
    out.push(tag)?;
    out.push(open_attributes(text.kind))?;
    out.push(b">")?;
    out.push_escaped(&text.value, false)?;
    out.push(b"</")?;
    out.push(tag)?;
    out.push(b">")?;
    Ok(())
}

/// Adds the text construct if there is one.
#[tactic(auto, unfolding(crate::specs::Entries::optional_construct))]
pub fn push_optional_construct<W: Out>(
    out: &mut W,
    tag: &[u8],
    text: &Option<Text>,
) -> Result<(), NoMemory>
    ensures added { OnOk result (W.adds out.old out.new (optional_construct tag.now text.now)) }
    ensures failed { OnErr result W.can_fail }
    ensures rules { OnOk result (IfSome text.now IsText) }
{
    match text {
        Some(text) => push_construct(out, tag, text),
        None => Ok(()),
    }
}
