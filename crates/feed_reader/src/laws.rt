ghost use Rattle.feed_reader.specs.FeedLaws.{BytesHaveOneFeedRefusal, BytesSpellOneFeed, FeedsAreNotRefused};

// The function does nothing. It exists for its contract, which is a law over the definitions of specs/.

/// Bytes in the document of an address spell one feed document at most, and then they aren't refused. Bytes are refused
/// for one reason at one offset at most.
pub fn bytes_are_read_as_a_feed_in_one_way()
    ensures documents { BytesSpellOneFeed }
    ensures refusals { BytesHaveOneFeedRefusal }
    ensures apart { FeedsAreNotRefused }
{}
