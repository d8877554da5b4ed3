ghost use Rattle.service_face.specs.Laws.{ListingsAreNewestFirst, PagesAreNoDocuments, TargetsAreAddresses};

// The functions of this file do nothing. Each exists for its contract, which is a law over the definitions of specs/.

/// The listing has exactly the live members, and each was named later than those after it.
pub fn listings_are_newest_first()
    ensures { ListingsAreNewestFirst }
{}

/// No target names both a page and a document.
pub fn pages_are_no_documents()
    ensures { PagesAreNoDocuments }
{}

/// A target names a page exactly if it is the page's whole address, or that address from the path on.
pub fn targets_are_addresses()
    ensures { TargetsAreAddresses }
{}
