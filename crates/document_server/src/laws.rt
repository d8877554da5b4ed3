ghost use Rattle.document_server.specs.Laws.{OneOutcome, ShownAreServed};

// The functions of this file do nothing. Each exists for its contract, which is a law over the definitions of specs/.

/// A feed document in a reply is what the feed serves at the address that the request names.
pub fn shown_are_served()
    ensures { ShownAreServed }
{}

/// A request has one outcome at most, if its target names one address at most.
pub fn requests_have_one_outcome()
    ensures { OneOutcome }
{}
