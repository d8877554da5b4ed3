ghost use Rattle.xml_tokens.specs.Laws.{BytesHaveOneTree, DocumentsAreNotRefused, TokensHaveOneRefusal};

// The function does nothing. It exists for its contract, which is a law over the definitions of specs/.

/// Bytes are a document with one tree at most, and then no token of them is refused. Bytes are refused for one
/// reason of a token at one offset at most.
pub fn tokens_are_read_in_one_way()
    ensures trees { BytesHaveOneTree }
    ensures refusals { TokensHaveOneRefusal }
    ensures apart { DocumentsAreNotRefused }
{}
