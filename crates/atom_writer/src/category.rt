ghost use Rattle.std.specs.Prelude.{◌≡◌, ◌++◌, All, OnOk, OnErr, flat_map};
ghost use Rattle.atom_values.specs.Category.{IsCategory};
ghost use Rattle.atom_writer.specs.Parts.{category_text};

use crate::attribute::{push_attribute, push_optional_attribute};
use crate::out::Out;
use atom_values::{Category, NoMemory};

/// Adds a category of the entry (RFC 4287 section 4.2.2).
fn push_category<W: Out>(out: &mut W, category: &Category) -> Result<(), NoMemory>
    ensures added { OnOk result (W.adds out.old out.new (category_text category.now)) }
    ensures failed { OnErr result W.can_fail }
    ensures rules { OnOk result (IsCategory category.now) }
{
    out.push(b"<category")?;
    push_attribute(out, b"term", &category.term)?;
    push_optional_attribute(out, b"scheme", &category.scheme)?;
    push_optional_attribute(out, b"label", &category.label)?;
    out.push(b"/>")?;
    Ok(())
}

/// Adds the categories of the entry, in order.
pub fn push_categories<W: Out>(out: &mut W, categories: &[Category]) -> Result<(), NoMemory>
    ensures added { OnOk result (W.adds out.old out.new (flat_map category_text categories.now)) }
    ensures failed { OnErr result W.can_fail }
    ensures rules { OnOk result (All IsCategory categories.now) }
{
    for category in categories {
        push_category(out, category)?;
    }
    Ok(())
}
