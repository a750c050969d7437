// The case number of a rule against the limit.
ghost use Rattle.std.specs.Prelude.{◌≡◌, length, nat_lt};
ghost use Rattle.semantics.specs.Cases.{settled_codes, case_number};
ghost use Rattle.semantics.specs.Held.{rule_of};

use crate::side::count_freezes;
use domain::Domain;
use semantics::rule::Rule;

// A rule with more cases is refused.
const MOST_CASES: u64 = 100_000_000;

// How many codes are settled.
fn count_settled<D: Domain>(domain: &D) -> u16
    ensures { result ≡ length (settled_codes (D.Domain.model domain.now)) }
{
    // not `filter` and `count`, which tell of a range what came at each place, and nothing of the list
    let mut count = 0;
    for code in 0..domain.size() {
        if domain.settled(code) {
            count += 1;
        }
    }
    count
}

// Whether a rule has more cases than are tried. A number beyond 64 bits is beyond the limit too.
pub fn too_many_cases<D: Domain>(domain: &D, rule: &Rule) -> bool
    ensures { result ≡ nat_lt 100_000_000 (case_number (D.Domain.model domain.now) (rule_of rule.now)) }
{
    let freezes = count_freezes(rule.source()) + count_freezes(rule.target());
    let lists = u64::from(domain.size()).saturating_pow(u32::from(rule.variables()));
    let choices = u64::from(count_settled(domain)).saturating_pow(u32::from(freezes));
    lists.saturating_mul(choices) > MOST_CASES
}
