ghost use Rattle.std.specs.Prelude.{◌≡◌, ℕ, ◌+◌, ◌<◌, ◌≤◌, List, OnOk};
ghost use Rattle.xml_tokens.specs.Tree.{Element as TreeElement, Content as Inner};
ghost use Rattle.xml_tokens.specs.Tree.Content.{nothing};
ghost use Rattle.feed_reader.specs.Rest.{elements_only};
ghost use Rattle.xml_tokens.specs.Children.{with_child};
ghost use Rattle.xml_tokens.specs.Progress.{Point, IsAt, IsElementOf, IsReading, depth_of, left_of, pending, total_of};
ghost use Rattle.feed_reader.specs.Rest.{IsRestRead};

use xml_tokens::{Element, Elements, Event, TokenFault};

/// What is read of an element, child by child.
pub(crate) trait Parts {
    /// This was read of the content of an element up to here. Characters between its children say nothing.
    ghost Read: { Inner → Self → Type 0 };

    /// Bytes that no child changes.
    ghost fixed: { Self → List ℕ };

    /// Reads a child to its end.
    fn child<'a>(
        &mut self,
        elements: &mut Elements<'a>,
        child: &Element<'a>,
    ) -> Result<(), TokenFault>
        requires reading { IsReading elements.old }
        requires inside { 1 ≤ depth_of elements.old }
        ensures read { (from : Point) (b : Inner) (e : TreeElement) → IsAt elements.old from
            → IsElementOf e child.now → Read b self.old
            → IsRestRead (λ inner _. Read (with_child b e inner) self.new)
            (total_of elements.old) (pending elements.old) from result elements.new }
        ensures fixed { fixed self.new ≡ fixed self.old }
        ensures depth { OnOk result (depth_of elements.new + 1 ≡ depth_of elements.old) }
        ensures shorter { OnOk result (left_of elements.new < left_of elements.old) };
}

/// Reads the rest of the innermost open element, child by child.
pub(crate) fn read_children<P: Parts>(
    elements: &mut Elements<'_>,
    parts: &mut P,
) -> Result<(), TokenFault>
    requires reading { IsReading elements.old }
    requires inside { 1 ≤ depth_of elements.old }
    requires start { P.Read nothing parts.old }
    ensures read { (from : Point) → IsAt elements.old from
        → IsRestRead (λ inner _. P.Read (elements_only inner) parts.new)
        (total_of elements.old) (pending elements.old) from result elements.new }
    ensures fixed { P.fixed parts.new ≡ P.fixed parts.old }
    ensures depth { OnOk result (depth_of elements.new + 1 ≡ depth_of elements.old) }
    ensures shorter { OnOk result (left_of elements.new < left_of elements.old) }
{
    while let Some(event) = elements.next()? {
        match event {
            Event::Begin(child) => parts.child(elements, &child)?,
            Event::Said(_) => {}
            Event::End => return Ok(()),
        }
    }
    Ok(())
}
