ghost use Rattle.coverage_auditor.specs.Own.{OwnCertificatesAreAccepted};
ghost use Rattle.coverage_auditor.specs.Verdict.{OneVerdict};

// The functions of this file do nothing. They exist for their contracts, which are laws over the definitions of specs/.

/// A certificate and a pile have at most one verdict, so the definition of the verdict decides what [`audit`] returns.
///
/// [`audit`]: crate::audit
pub fn audits_have_one_verdict()
    ensures { OneVerdict }
{}

/// The certificate of a complete mirror is accepted over a pile of the mirror's own documents, each offered under its
/// own address, in any order, once or more often.
pub fn own_certificates_are_accepted()
    ensures { OwnCertificatesAreAccepted }
{}
