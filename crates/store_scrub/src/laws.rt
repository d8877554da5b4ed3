ghost use Rattle.store_scrub.specs.Repair.{RepairsEndInOneWay};
ghost use Rattle.store_scrub.specs.Scrub.{IsSoundInOneWay};

// The functions of this file do nothing. Each exists for its contract, which is a law over the definitions of specs/.

/// A store that is sound has one number of operations and one number of seals.
pub fn stores_are_sound_in_one_way()
    ensures { IsSoundInOneWay }
{}

/// A repair of a history's journal has one end: its numbers, or the seal that has no room.
pub fn repairs_end_in_one_way()
    ensures { RepairsEndInOneWay }
{}
