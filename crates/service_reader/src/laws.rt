ghost use Rattle.service_reader.specs.ServiceLaws.{BytesHaveOneServiceRefusal, BytesSpellOneService};
ghost use Rattle.service_reader.specs.ServiceLaws.{ServicesAreNotRefused};

// The function does nothing. It exists for its contract, which is a law over the definitions of specs/.

/// Bytes in the document of an address spell one list of collections at most, and then they aren't refused. Bytes are
/// refused for one reason at one offset at most.
pub fn bytes_are_read_as_a_service_in_one_way()
    ensures collections { BytesSpellOneService }
    ensures refusals { BytesHaveOneServiceRefusal }
    ensures apart { ServicesAreNotRefused }
{}
