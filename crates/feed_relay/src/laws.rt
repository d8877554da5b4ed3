ghost use Rattle.feed_relay.specs.Laws.{RelaysAnswerWhatIsServed, WalksOfRelaysKeepWhatIsServed};
ghost use Rattle.feed_relay.specs.Laws.{WalksOfRelaysShowTheSame};

// The functions of this file do nothing. Each exists for its contract, which is a law over the definitions of specs/.

/// If one feed served all documents that a relay holds, it served each document that the relay answers with. So a mirror
/// refuses none of them.
pub fn relays_answer_what_is_served()
    ensures { RelaysAnswerWhatIsServed }
{}

/// A mirror of a relay, or of any number of relays in a row, holds only documents that the origin's feed served.
pub fn walks_of_relays_keep_what_is_served()
    ensures { WalksOfRelaysKeepWhatIsServed }
{}

/// If a relay's mirror has no missing document, an empty mirror that walks the relay has none either. It has the same
/// version and the same live entries. The walk ended without a fault, which a full area is too.
pub fn walks_of_relays_show_the_same()
    ensures { WalksOfRelaysShowTheSame }
{}
