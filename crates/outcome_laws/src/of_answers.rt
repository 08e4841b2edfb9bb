//! Laws of words and files, and of what is written again: each is the contract of a call that does nothing.

ghost use Rattle.outcome_laws.specs.Existing.{AcceptedOrRefusedExist, BadWordsExist};
ghost use Rattle.outcome_laws.specs.Files.{AcceptedTextsAreOne, RefusedLinesAreOne, AcceptedOrRefused};
ghost use Rattle.outcome_laws.specs.Certificates.{AcceptedHold, ProofsAreAccepted};
ghost use Rattle.outcome_laws.specs.Agreeing.{LengthsAgree, ProblemsAgree};
ghost use Rattle.outcome_laws.specs.Words.{BadWordsAreOne, CallsHaveNone};

/// Of refused words at most one is named.
pub fn bad_words_are_one()
    ensures { BadWordsAreOne }
{}

/// Words that spell a call have no bad word.
pub fn calls_have_none()
    ensures { CallsHaveNone }
{}

/// Words that spell no call have a bad word.
pub fn bad_words_exist()
    ensures { BadWordsExist }
{}

/// Files that are there are all accepted in turn, or one is the first refused.
pub fn accepted_or_refused_exist()
    ensures { AcceptedOrRefusedExist }
{}

/// Files that are known hold at most one list of texts that are accepted in turn.
pub fn accepted_texts_are_one()
    ensures { AcceptedTextsAreOne }
{}

/// Files that are known come to at most one line of the first refused one.
pub fn refused_lines_are_one()
    ensures { RefusedLinesAreOne }
{}

/// Files that are known do not hold accepted texts alone and a refused one.
pub fn accepted_or_refused()
    ensures { AcceptedOrRefused }
{}

/// What is written again is a scenario with an entry for each line below the first, and on the same map and
/// under the same rule all rows of `scen` are `agree`: its last line counts as many, and the status is 0.
pub fn lengths_agree()
    ensures { LengthsAgree }
{}

/// So is what is made from a number, with an entry for each try that was kept.
pub fn problems_agree()
    ensures { ProblemsAgree }
{}

/// What `check` accepts holds: the claim that a certificate is read as is accepted on the grid, and what the
/// line says is so of all walks there.
pub fn accepted_hold()
    ensures { AcceptedHold }
{}

/// What `prove` prints between free cells of one grid of a map is read again, and accepted on that grid.
pub fn proofs_are_accepted()
    ensures { ProofsAreAccepted }
{}
