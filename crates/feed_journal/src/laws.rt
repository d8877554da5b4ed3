ghost use Rattle.feed_journal.specs.Laws.{BegunAreWhole};

/// An image that begins with an area's payloads and a closed gate is whole, and has those payloads. The function does
/// nothing: it exists for its contract, which is a law over the definitions of specs/.
pub fn begun_images_are_whole()
    ensures { BegunAreWhole }
{}
