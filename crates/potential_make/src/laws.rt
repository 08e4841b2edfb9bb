//! The law of certificates: the contract of a call that does nothing.

ghost use Rattle.potential_make.specs.Certified.{CertificatesAreAccepted};

/// Between free cells the certificate spells its claim, is read as that and is accepted; it is no longer than
/// the texts that the reader takes. It lists exactly the closed or the reached cells, and has its potential.
pub fn certificates_are_accepted()
    ensures { CertificatesAreAccepted }
{}
