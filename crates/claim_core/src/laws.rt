//! Laws of all runs of the machine, for any entries.

ghost use Rattle.claim_core.specs.Laws.{ClaimsAreDealtOnce, ClaimsEndInTheBook};

/// However the workers take turns, each claim that was drawn is published or held, once.
pub fn claims_are_dealt_once<E>()
    ensures { ClaimsAreDealtOnce E }
{}

/// However the workers take turns, once all are over each claim stands in the book once.
pub fn claims_end_in_the_book<E>()
    ensures { ClaimsEndInTheBook E }
{}
