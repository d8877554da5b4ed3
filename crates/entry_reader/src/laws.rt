ghost use Rattle.entry_reader.specs.Laws.{BytesHaveOneRefusal, BytesSpellOneDraft, DraftsAreNotRefused};

// The function does nothing. It exists for its contract, which is a law over the definitions of specs/.

/// Bytes spell one draft at most, and then they aren't refused. Bytes are refused for one reason at one offset at
/// most.
pub fn bytes_are_read_in_one_way()
    ensures drafts { BytesSpellOneDraft }
    ensures refusals { BytesHaveOneRefusal }
    ensures apart { DraftsAreNotRefused }
{}
