// What the texts of rules and programs mean.
#![tactic(auto)]

ghost use Rattle.text.specs.Accepted.{RulesWellMade, ProgramsFormed};
ghost use Rattle.text.specs.Refused.{RulesTold, ProgramsTold, RulesFirstLine, ProgramsFirstLine, SmallestTold};
ghost use Rattle.text.specs.Writing.{ProgramsReadBack, RulesReadBack};

use domain::Domain;

// What is accepted is well made.
pub fn what_is_accepted<D: Domain>(domain: &D)
    ensures rules { RulesWellMade (D.Domain.model domain.now) }
    ensures programs { ProgramsFormed (D.Domain.model domain.now) }
{}

// What a refusal tells: the first faulty line is told, and the smallest of its faults.
pub fn what_is_refused<D: Domain>(domain: &D)
    ensures rules { RulesTold (D.Domain.model domain.now) }
    ensures programs { ProgramsTold (D.Domain.model domain.now) }
    ensures rule_lines { RulesFirstLine (D.Domain.model domain.now) }
    ensures program_lines { ProgramsFirstLine (D.Domain.model domain.now) }
    ensures smallest { SmallestTold (D.Domain.model domain.now) }
{}

// What was written is read back.
pub fn what_is_written<D: Domain>(domain: &D)
    ensures programs { ProgramsReadBack (D.Domain.model domain.now) }
    ensures rules { RulesReadBack (D.Domain.model domain.now) }
{}
