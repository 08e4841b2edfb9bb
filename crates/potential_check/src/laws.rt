//! Laws of checks: each is the contract of a call that does nothing.

ghost use Rattle.potential_check.specs.Answers.{AcceptedHold, CertificatesAreAnswered, ClaimsAreAnswered};
ghost use Rattle.potential_check.specs.Walks.{WalksAreAnswered};

/// What points come to between two cells is a function of the grid, the cells and the points: the cost of the
/// walk that they stand for, or the number that tells that they stand for none. No other answer is right.
pub fn walks_are_answered()
    ensures { WalksAreAnswered }
{}

/// What a claim comes to is a function of the grid, the cells and the claim: it is accepted, or refused by
/// the first clause that it fails. No other answer is right.
pub fn claims_are_answered()
    ensures { ClaimsAreAnswered }
{}

/// So is what a certificate comes to, and certificates of one text come to one answer on each grid.
pub fn certificates_are_answered()
    ensures { CertificatesAreAnswered }
{}

/// What an accepted certificate claims holds of all walks between its ends: the cost is that of a least one,
/// or there is none.
pub fn accepted_certificates_hold()
    ensures { AcceptedHold }
{}
