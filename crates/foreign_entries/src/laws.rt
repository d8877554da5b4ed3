ghost use Rattle.foreign_entries.specs.Laws.{DocumentsHaveOneLive};

// The function does nothing. It exists for its contract, which is a law over the definitions of specs/.

/// Documents have one list of live entries.
pub fn documents_have_one_live_list()
    ensures { DocumentsHaveOneLive }
{}
