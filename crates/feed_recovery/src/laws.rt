ghost use Rattle.feed_recovery.specs.Opening.{OpensInOneWay};

// The function does nothing. It exists for its contract, which is a law over the definitions of specs/.

/// Two areas open to one head, one history and one number of seals, or to none.
pub fn stores_open_in_one_way()
    ensures { OpensInOneWay }
{}
