ghost use Rattle.canonical_feed.specs.Laws.{CanonicalTextIsRead};

// The function does nothing. It exists for its contract, which is a law over the definitions of specs/.

/// The canonical text of a feed document is read by `feed_reader::read_feed` as the document's identifiers, titles and
/// dates.
pub fn canonical_text_is_read()
    ensures { CanonicalTextIsRead }
{}
