ghost use Rattle.mirror_walk.specs.Laws.{LawOfTheMirror};
ghost use Rattle.mirror_walk.specs.Walk.{WalksAskOnce};

// The functions of this file do nothing. Each exists for its contract, which is a law over the definitions of
// specs/.

/// The law of a mirror. Let all documents offered be served by one feed after some of its operations, in any
/// order, with losses and repeats. Then none is refused. The best subscription document has the greatest
/// `last` of those offered. The first missing document is the greatest archive of its chain that was not
/// offered. If none is missing, the documents are the chain of the feed at that version, and show exactly its live
/// entries.
pub fn served_documents_show_the_fold()
    ensures { LawOfTheMirror }
{}

/// The law of a walk. It asks for the feed's document once, and then for archives that the mirror doesn't
/// hold, newest first and each once.
pub fn walks_ask_for_nothing_twice()
    ensures { WalksAskOnce }
{}
