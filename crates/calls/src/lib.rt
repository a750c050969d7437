// What the eight calls of a bench do, and what every list of calls keeps, over any value domain.
#![tactic(auto)]

ghost use Rattle.calls.specs.States.{StartsProper, StaysProper, ReachedProper};
ghost use Rattle.calls.specs.Refusals.{Refusals};
ghost use Rattle.calls.specs.Histories.{Kept, EntersExactly, OneMore};
ghost use Rattle.calls.specs.Examples.{Worked};

use domain::Domain;

// In every state that calls lead to, each slot and each record is in one place, and every rule and program is proper.
pub fn states_proper<D: Domain>(domain: &D)
    ensures starts { StartsProper (D.Domain.model domain.now) }
    ensures stays { StaysProper (D.Domain.model domain.now) }
    ensures reached { ReachedProper (D.Domain.model domain.now) }
{}

// A refusal leaves all unchanged; the refutation of a draft ends it and frees its slot.
pub fn refusals_told<D: Domain>(domain: &D)
    ensures { Refusals (D.Domain.model domain.now) }
{}

// After any list of calls the present program refines the one last loaded, and checking enters exactly the sound rules.
pub fn histories_keep<D: Domain>(domain: &D)
    ensures kept { Kept (D.Domain.model domain.now) }
    ensures enters { EntersExactly (D.Domain.model domain.now) }
    ensures goes { OneMore (D.Domain.model domain.now) }
{}

// The worked examples at width 4.
pub fn examples_hold()
    ensures { Worked }
{}
