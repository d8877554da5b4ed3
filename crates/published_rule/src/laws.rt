ghost use Rattle.published_rule.specs.Laws.{CutsKeepTheRule, ChainsKeepTheRule, LiveOfCounts};

// The functions of this file do nothing. Each exists for its contract, which is a law over the definitions of specs/.

/// The law of the published rule. In the documents of a lawful history an entry counts by `specs/Counts.antt` exactly
/// where the newest document that has an item of its member has that entry. So a reader that goes by `updated` and
/// `when` shows the same entries as one that goes by the order of the chain.
///
/// It holds for each cut of the history into spans, and so for the chain that a feed serves after any of its
/// operations.
pub fn published_rule_shows_the_chain()
    ensures cuts { CutsKeepTheRule }
    ensures chains { ChainsKeepTheRule }
{}

/// The map `live_of` of the chain that a feed serves after any of its operations has exactly the entries that count.
pub fn live_of_counts()
    ensures { LiveOfCounts }
{}
