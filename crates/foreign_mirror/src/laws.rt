ghost use Rattle.foreign_mirror.specs.Laws.{WalksAskOnce, WalksEndInOneWay};

// The function does nothing. It exists for its contract, which is a law over the definitions of specs/.

/// What a source answers determines the addresses of a walk, the documents that it takes and its end. A walk asks for no
/// address twice.
pub fn walks_end_in_one_way()
    ensures ends { WalksEndInOneWay }
    ensures once { WalksAskOnce }
{}
