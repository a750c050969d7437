// What a script is told for a line.
ghost use Rattle.std.specs.Prelude.{◌≡◌, Some};
ghost use Rattle.std.specs.Option.{option_map};
ghost use Rattle.program.specs.View.{view as table_view};
ghost use Rattle.script.specs.declared.answer.Refusal.TheVariants.{NoBench, Refused};
ghost use Rattle.bench.specs.Faults.{layer_seen};
ghost use Rattle.script.specs.Answers.{fault_text, outcome_text};
ghost use Rattle.script.specs.Shows.{without_rules};
ghost use Rattle.script.specs.Transcripts.{refusal_seen, answer_seen, told_text};

use crate::marks::AllMarks;
use crate::show::Present;
use bench::fault::{BenchFault, FaultLayer};
use domain::fault::DomainFault;
use domain::{Outcome, Trapped};
use program::table::Table;
use std::fmt;
use vocabulary::marks::Marks;

// What an obeyed command gives.
#[derive(Clone, Copy)]
pub enum Answer {
    // a bench was made, over a domain of so many codes
    Bench(u16),
    // what an operation gives, and the marks that it breaks
    Computed(Outcome, Marks),
    Loaded,
    Evaluated(Outcome),
    // the present program and the book
    Shown,
}

// Why a line is not obeyed.
#[derive(Clone, Copy, PartialEq, Debug)]
pub enum Refusal {
    // there is no such domain to make a bench over
    NoBench(DomainFault),
    Refused(BenchFault),
    // the line, counted from 1, does not parse or needs a bench
    ScriptError(u64),
}

impl From<DomainFault> for Refusal {
    ghost from_gives = { λ e r. r ≡ NoBench e };

    fn from(e: DomainFault) -> Refusal {
        Refusal::NoBench(e)
    }
}

impl From<BenchFault> for Refusal {
    ghost from_gives = { λ e r. r ≡ Refused e };

    fn from(e: BenchFault) -> Refusal {
        Refusal::Refused(e)
    }
}

// A fault as every refusal tells it.
#[derive(Clone, Copy)]
struct Fault {
    number: u8,
    layer: FaultLayer,
    line: u16,
}

impl fmt::Display for Fault {
    ghost output = { λ x. Some (fault_text (record { number = x.number; layer = layer_seen x.layer; line = x.line })) };

    fn fmt<W: fmt::Write>(&self, f: &mut fmt::Formatter<W>) -> fmt::Result {
        let Fault {
            number,
            layer,
            line,
        } = *self;
        write!(f, "fault {number} {layer} {line}")
    }
}

impl fmt::Display for Refusal {
    ghost output = { λ r. Some (told_text (refusal_seen r)) };

    fn fmt<W: fmt::Write>(&self, f: &mut fmt::Formatter<W>) -> fmt::Result {
        match self {
            Refusal::NoBench(fault) => {
                let told = Fault {
                    number: fault.number(),
                    layer: FaultLayer::Domain,
                    line: 0,
                };
                write!(f, "{told}")
            }
            Refusal::Refused(fault) => {
                let told = Fault {
                    number: fault.number(),
                    layer: fault.layer(),
                    line: fault.line(),
                };
                write!(f, "{told}")
            }
            Refusal::ScriptError(line) => write!(f, "script error {line}"),
        }
    }
}

// A code, or that there is none.
#[derive(Clone, Copy)]
struct Ended(Outcome);

impl fmt::Display for Ended {
    ghost output = { λ o. Some (outcome_text o.0) };

    fn fmt<W: fmt::Write>(&self, f: &mut fmt::Formatter<W>) -> fmt::Result {
        match self.0 {
            Ok(code) => write!(f, "code {code}"),
            Err(Trapped) => write!(f, "trap"),
        }
    }
}

// What is printed for a line, without a line feed; `program` is the present one.
#[derive(Clone, Copy)]
pub struct Told<'a> {
    pub answer: Result<Answer, Refusal>,
    pub program: Option<&'a Table>,
}

impl fmt::Display for Told<'_> {
    ghost output = { λ t. Some (told_text (answer_seen (without_rules (option_map (λ p. table_view p.now) t.program)) t.answer)) };

    fn fmt<W: fmt::Write>(&self, f: &mut fmt::Formatter<W>) -> fmt::Result {
        match self.answer {
            Ok(Answer::Bench(size)) => write!(f, "bench {size}"),
            Ok(Answer::Computed(outcome, broken)) => {
                write!(f, "{} breaks{}", Ended(outcome), AllMarks(broken))
            }
            Ok(Answer::Loaded) => write!(f, "loaded"),
            Ok(Answer::Evaluated(outcome)) => write!(f, "{}", Ended(outcome)),
            Ok(Answer::Shown) => write!(f, "{}", Present(self.program)),
            Err(refusal) => write!(f, "{refusal}"),
        }
    }
}
