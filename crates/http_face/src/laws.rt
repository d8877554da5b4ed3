ghost use Rattle.http_face.specs.Heard.{RequestsHaveOneReading, RequestsAreNotRefused, HeadsDecideTheFault};
ghost use Rattle.http_face.specs.Response.{ResponsesHaveOneReading, AnswersAreNotBad};

// The functions do nothing. They exist for their contracts, which are laws over the definitions of specs/.

/// The bytes of a connection are heard as one request at most, and then no fault fits them. If they begin with a head,
/// only the fault of the body that it states fits.
pub fn requests_have_one_reading()
    ensures one { RequestsHaveOneReading }
    ensures unrefused { RequestsAreNotRefused }
    ensures decided { HeadsDecideTheFault }
{}

/// The bytes of a connection have one answer at most, and then they aren't a bad response.
pub fn responses_have_one_reading()
    ensures one { ResponsesHaveOneReading }
    ensures answered { AnswersAreNotBad }
{}
