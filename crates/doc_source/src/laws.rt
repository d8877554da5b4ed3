ghost use Rattle.doc_source.specs.Laws.{OffersAreReadInOrder, PilesAreReadWhole, PilesHaveOneReading};

// The function does nothing. It exists for its contract, which is a law over the definitions of specs/.

/// A text is the pile of one list of offers at most. The offers that a reader returns until `None` are exactly those of
/// its pile, in order.
pub fn piles_have_one_reading()
    ensures one { PilesHaveOneReading }
    ensures in_order { OffersAreReadInOrder }
    ensures whole { PilesAreReadWhole }
{}
