ghost use Rattle.std.specs.Prelude.{◌≡◌, ◌+◌, ◌<◌, ◌≤◌, OnOk};
ghost use Rattle.xml_tokens.specs.Tree.{Element as TreeElement, Content as Inner};
ghost use Rattle.xml_tokens.specs.Tree.Content.{nothing};
ghost use Rattle.xml_tokens.specs.Children.{with_child};
ghost use Rattle.xml_tokens.specs.Progress.{Point, IsAt, IsElementOf, IsReading, depth_of, left_of, pending, total_of};
ghost use Rattle.feed_reader.specs.Rest.{IsRestRead, elements_only};

use xml_tokens::{Element, Elements, Event, TokenFault};

/// Reads the children of an element into a `T`, one after another.
pub(crate) trait Children<T> {
    /// Relates the `T` before the first child, the content that is read, and the `T` after it. Characters between the
    /// children make no difference.
    ghost Read: { Self → T → Inner → T → Type 0 };

    /// Reads a child to its end.
    fn child<'a>(
        &self,
        elements: &mut Elements<'a>,
        child: &Element<'a>,
        into: &mut T,
    ) -> Result<(), TokenFault>
        requires reading { IsReading elements.old }
        requires inside { 1 ≤ depth_of elements.old }
        ensures read { (from : Point) (start : T) (b : Inner) (e : TreeElement) → IsAt elements.old from
            → IsElementOf e child.now → Read self.now start b into.old
            → IsRestRead (λ inner _. Read self.now start (with_child b e inner) into.new)
            (total_of elements.old) (pending elements.old) from result elements.new }
        ensures depth { OnOk result (depth_of elements.new + 1 ≡ depth_of elements.old) }
        ensures shorter { OnOk result (left_of elements.new < left_of elements.old) };
}

/// Reads the rest of the innermost open element, child by child.
pub(crate) fn read_children<T, C: Children<T>>(
    children: &C,
    elements: &mut Elements<'_>,
    into: &mut T,
) -> Result<(), TokenFault>
    requires reading { IsReading elements.old }
    requires inside { 1 ≤ depth_of elements.old }
    requires start { C.Read children.now into.old nothing into.old }
    ensures read { (from : Point) → IsAt elements.old from
        → IsRestRead (λ inner _. C.Read children.now into.old (elements_only inner) into.new)
        (total_of elements.old) (pending elements.old) from result elements.new }
    ensures depth { OnOk result (depth_of elements.new + 1 ≡ depth_of elements.old) }
    ensures shorter { OnOk result (left_of elements.new < left_of elements.old) }
{
    while let Some(event) = elements.next()? {
        match event {
            Event::Begin(child) => children.child(elements, &child, into)?,
            Event::Said(_) => {}
            Event::End => return Ok(()),
        }
    }
    Ok(())
}
