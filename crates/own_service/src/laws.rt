ghost use Rattle.own_service.specs.Laws.{ServiceDocIsRead};

// The function does nothing. It exists for its contract, which is a law over the definitions of specs/.

/// The service document of a feed is read by `service_reader::read_service` as one collection, which has the feed's
/// address and takes entries.
pub fn service_doc_is_read()
    ensures { ServiceDocIsRead }
{}
