ghost use Rattle.feed_life.specs.Laws.{StoresAnswerWhatIsServed};

// The functions of this file do nothing. Each exists for its contract, which is a law over the definitions of specs/.

/// Each document of a store is one that its feed serves, so a mirror refuses none of them.
pub fn stores_answer_what_is_served()
    ensures { StoresAnswerWhatIsServed }
{}
