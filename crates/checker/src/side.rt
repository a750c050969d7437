// A side of a rule run.
ghost use Rattle.std.specs.Prelude.{◌≡◌, ◌≤◌, length};
ghost use Rattle.copy_vec.specs.Items.{items};
ghost use Rattle.semantics.specs.Programs.{outcome};
ghost use Rattle.semantics.specs.Rules.{side as as_program};
ghost use Rattle.semantics.specs.Cases.{freezes_in, outcome_refining};

use domain::{Domain, Outcome, Trapped};
use semantics::rule::Side;
use semantics::run::Run;

// How many choices a side uses up.
pub fn count_freezes(side: &Side) -> u8
    ensures value { result ≡ freezes_in (items side.now) }
    ensures few { result ≤ 8 }
{
    side.iter()
        .filter(|instruction| instruction.is_freeze())
        .count() as u8
}

// The outcome of a side at these variables and choices.
pub fn run_side<D: Domain>(domain: &D, side: &Side, variables: &[u16], choices: &[u16]) -> Outcome
    ensures { result ≡ outcome (D.Domain.model domain.now) (as_program (length variables.now) (items side.now)) variables.now choices.now }
{
    // the numbers of the instructions begin at 1
    let mut run = Run::<D, 9>::new(domain, variables, choices);
    for (before, instruction) in side.iter().enumerate() {
        run.take(before as u8 + 1, *instruction)?;
    }
    Ok(run.value(side.len() as u8))
}

// Whether the target's outcome refines the source's.
pub fn outcome_refines<D: Domain>(domain: &D, target: Outcome, source: Outcome) -> bool
    ensures { result ≡ outcome_refining (D.Domain.model domain.now) target source }
{
    match (target, source) {
        (Ok(a), Ok(b)) => domain.refines(a, b),
        (Err(Trapped), Ok(_)) => false,
        (_, Err(Trapped)) => true,
    }
}
