// The search for a case that refutes a rule.
ghost use Rattle.std.specs.Prelude.{◌≡◌, replicate};
ghost use Rattle.copy_vec.specs.Items.{items};
ghost use Rattle.semantics.specs.Cases.{tuples, settled_codes, none, freezes_in, refutes, first_refuting, SearchExact};
ghost use Rattle.semantics.specs.Held.{rule_of};
ghost use Rattle.checker.specs.Walks.{first_digits};
ghost use Rattle.checker.specs.Shown.{allows, case_of, found};

use crate::case::Case;
use crate::codes::Codes;
use crate::side::{count_freezes, outcome_refines, run_side};
use domain::{Domain, Outcome};
use semantics::rule::{Rule, Side};

// Whether no choices of the source let the target's outcome refine the source's. `choices` are the first of them.
fn unmatched<D: Domain>(
    codes: &Codes<'_, D>,
    source: &Side,
    variables: &[u16],
    ours: Outcome,
    choices: Case,
) -> bool
    requires alone { choices.variable_count ≡ 0 }
    requires digits { choices.digits ≡ first_digits 0 codes.now.least }
    ensures { result ≡ none (allows (D.Domain.model codes.now.domain.now) ours (items source.now) variables.now) (tuples (replicate choices.choice_count (settled_codes (D.Domain.model codes.now.domain.now)))) }
{
    let mut next = Some(choices);
    while let Some(choices) = next {
        let theirs = run_side(codes.domain(), source, variables, choices.choices());
        if outcome_refines(codes.domain(), ours, theirs) {
            return false;
        }
        next = choices.next(codes);
    }
    true
}

// Whether a case refutes a rule. `choices` are the first that the source has.
fn refutes<D: Domain>(codes: &Codes<'_, D>, rule: &Rule, case: &Case, choices: Case) -> bool
    requires alone { choices.variable_count ≡ 0 }
    requires count { choices.choice_count ≡ freezes_in (rule_of rule.now).source }
    requires digits { choices.digits ≡ first_digits 0 codes.now.least }
    ensures { result ≡ refutes (D.Domain.model codes.now.domain.now) (rule_of rule.now) (case_of case.now) }
{
    let ours = run_side(
        codes.domain(),
        rule.target(),
        case.variables(),
        case.choices(),
    );
    unmatched(codes, rule.source(), case.variables(), ours, choices)
}

// The first case that refutes a rule, if any does.
pub fn first_refuting<D: Domain>(domain: &D, rule: &Rule) -> Option<Case>
    ensures value { found result ≡ first_refuting (D.Domain.model domain.now) (rule_of rule.now) }
    ensures exact { SearchExact (D.Domain.model domain.now) (rule_of rule.now) }
{
    let codes = Codes::of(domain);
    let choices = Case::first(&codes, 0, count_freezes(rule.source()));
    let mut next = Some(Case::first(&codes, rule.variables(), count_freezes(rule.target())));
    while let Some(case) = next {
        if refutes(&codes, rule, &case, choices) {
            return Some(case);
        }
        next = case.next(&codes);
    }
    None
}
