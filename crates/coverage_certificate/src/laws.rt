ghost use Rattle.coverage_certificate.specs.Text.{CertificatesHaveOneText};

// The function does nothing. It exists for its contract, which is a law over the definitions of specs/.

/// A text is that of one certificate at most.
pub fn certificates_have_one_text()
    ensures { CertificatesHaveOneText }
{}
