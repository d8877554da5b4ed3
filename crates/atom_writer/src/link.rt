ghost use Rattle.std.specs.Prelude.{◌≡◌, ◌++◌, All, OnOk, OnErr, flat_map};
ghost use Rattle.atom_values.specs.Link.{IsLink};
ghost use Rattle.atom_values.specs.XmlText.{IsAtomText};
ghost use Rattle.atom_writer.specs.Parts.{relation_text, link_text};

use crate::attribute::{push_attribute, push_optional_attribute};
use crate::out::Out;
use atom_values::{Link, NoMemory};

/// Adds the relation, or nothing if it is `alternate`, which an absent one means (RFC 4287 section 4.2.7.2).
#[tactic(auto, unfolding(crate::specs::Parts::relation_text))]
fn push_relation<W: Out>(out: &mut W, link: &Link) -> Result<(), NoMemory>
    ensures added { OnOk result (W.adds out.old out.new (relation_text link.now)) }
    ensures failed { OnErr result W.can_fail }
    ensures rules { OnOk result (IsAtomText link.now.rel) }
{
    if link.rel.bytes() == b"alternate".as_slice() {
        return Ok(());
    }
    push_attribute(out, b"rel", &link.rel)
}

/// Adds a link of the entry (RFC 4287 section 4.2.7).
fn push_link<W: Out>(out: &mut W, link: &Link) -> Result<(), NoMemory>
    ensures added { OnOk result (W.adds out.old out.new (link_text link.now)) }
    ensures failed { OnErr result W.can_fail }
    ensures rules { OnOk result (IsLink link.now) }
{
    out.push(b"<link")?;
    push_relation(out, link)?;
    push_attribute(out, b"href", &link.href)?;
    push_optional_attribute(out, b"type", &link.media)?;
    push_optional_attribute(out, b"hreflang", &link.hreflang)?;
    push_optional_attribute(out, b"title", &link.title)?;
    push_optional_attribute(out, b"length", &link.length)?;
    out.push(b"/>")?;
    Ok(())
}

/// Adds the links of the entry, in order.
pub fn push_links<W: Out>(out: &mut W, links: &[Link]) -> Result<(), NoMemory>
    ensures added { OnOk result (W.adds out.old out.new (flat_map link_text links.now)) }
    ensures failed { OnErr result W.can_fail }
    ensures rules { OnOk result (All IsLink links.now) }
{
    for link in links {
        push_link(out, link)?;
    }
    Ok(())
}
