ghost use Rattle.scrub_command.specs.Answer.{RepairsHaveOneEnd, SoundStoresHaveOneAnswer};

use store_scrub::{repairs_end_in_one_way, stores_are_sound_in_one_way};

// The functions of this file do nothing. Each exists for its contract, which is a law over the definitions of specs/.

/// A disk with a sound store has one answer of `scrub`.
pub fn sound_stores_have_one_answer()
    ensures { SoundStoresHaveOneAnswer }
{
    // Its contract is a law that the proof uses.
    stores_are_sound_in_one_way();
}

/// A disk whose journal is a history's has one end of a repair.
pub fn repairs_have_one_end()
    ensures { RepairsHaveOneEnd }
{
    // Its contract is a law that the proof uses.
    repairs_end_in_one_way();
}
