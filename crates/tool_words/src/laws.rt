ghost use Rattle.tool_words.specs.Laws.{WordsSpellOneCommand};

// The function does nothing. It exists for its contract, which is a law over the definitions of specs/.

/// Words spell one command at most.
pub fn words_spell_one_command()
    ensures { WordsSpellOneCommand }
{}
