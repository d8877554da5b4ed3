ghost use Rattle.atom_grammar.specs.Refusal.{OneReading, PrefixFree};

/// A law: no two documents have the same text.
pub fn texts_have_one_reading()
    ensures { OneReading }
{}

/// A law: no piece is a proper prefix of another piece that could stand in its place.
pub fn pieces_are_prefix_free()
    ensures { PrefixFree }
{}
