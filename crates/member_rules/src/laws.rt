ghost use Rattle.member_rules.specs.Laws.{LawOfCuts, WindowsAreACut, LawOfTheChain, ArchivesStay, ServedStays};
ghost use Rattle.member_rules.specs.Laws.{ServedAreDocuments, PrefixesAreLawful, WindowsSealInTurn};
ghost use Rattle.member_rules.specs.Laws.{SealedAreFull, DocumentsAreShort, OperationsAreLong};
ghost use Rattle.member_rules.specs.Laws.{LiveMembersAreMade, VersionsSetTheEntry, LiveOfIsShown};
ghost use Rattle.member_rules.specs.Coding.{heads, operations};
ghost use Rattle.atom_writer.specs.Pieced.{HasOneReading};

// The functions of this file do nothing. Each exists for its contract, which is a law over the definitions of specs/.

/// The law of the chain (RFC 5005 section 4). For each cut of a lawful history into spans, the subscription document
/// followed by its archives down to the first shows exactly the live entries. Each document but the first is followed
/// by the one before it, the last one's span begins at 1, and each keeps the rules of documents.
///
/// Windows are one such cut, so the law holds for the documents that a feed serves.
pub fn chain_shows_the_fold()
    ensures cuts { LawOfCuts }
    ensures windows { WindowsAreACut }
    ensures chain { LawOfTheChain }
{}

/// An archive never changes: once its window is full, it is the same for all later operations.
pub fn archives_stay()
    ensures { ArchivesStay }
{}

/// Bytes that a feed served once, it still serves after more operations.
pub fn served_stays_served()
    ensures { ServedStays }
{}

/// Served bytes are the text of a document that keeps the rules of documents, at the document's own address, with the
/// base and the identifier of the feed.
pub fn served_are_documents()
    ensures { ServedAreDocuments }
{}

/// The first operations of a lawful history are a lawful history.
pub fn prefixes_are_lawful()
    ensures { PrefixesAreLawful }
{}

/// An operation that follows a full open window seals it as an archive. Any other operation seals nothing.
pub fn windows_seal_in_turn()
    ensures { WindowsSealInTurn }
{}

/// Sealed windows are full, and all full windows but the newest are sealed.
pub fn sealed_windows_are_full()
    ensures { SealedAreFull }
{}

/// The documents of a lawful history have at most 67,108,864 bytes each, so that each fits into one payload of a log.
pub fn documents_are_short()
    ensures { DocumentsAreShort }
{}

/// An operation has at least 14 bytes, those of an empty title.
pub fn operations_are_long()
    ensures { OperationsAreLong }
{}

/// Bytes are those of one operation at most, and of one head at most.
pub fn bytes_have_one_reading()
    ensures operations { HasOneReading operations }
    ensures heads { HasOneReading heads }
{}

/// The number of a live member is from 1 to the number of members made.
pub fn live_members_are_made()
    ensures { LiveMembersAreMade }
{}

/// The version in a live member's state is the operation that set the member's entry, and the state has that entry's
/// `updated`.
pub fn versions_set_the_entry()
    ensures { VersionsSetTheEntry }
{}

/// The map `live_of` of a list of documents has exactly the entries that the documents show.
pub fn live_of_is_shown()
    ensures { LiveOfIsShown }
{}
