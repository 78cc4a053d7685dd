//! What follows from the definitions alone.

ghost use Rattle.wy_check.specs.Laws.{OneCertifies, OneIsSpelled, OneVerdictIsDue};

/// Bytes spell at most one certificate.
pub fn one_certificate_is_spelled()
    ensures { OneIsSpelled }
{}

/// An event of a trace has at most one certificate.
pub fn one_certificate_is_made()
    ensures { OneCertifies }
{}

/// At most one verdict is due for the bytes of a certificate over a trace.
pub fn one_verdict_is_due()
    ensures { OneVerdictIsDue }
{}
