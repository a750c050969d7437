// What the calls of a bench refuse.
ghost use Rattle.std.specs.Prelude.{◌≡◌, Some};
ghost use Rattle.bench.specs.declared.fault.BenchFault.TheVariants.{Reading, Evaluating};
ghost use Rattle.bench.specs.Faults.{bench_fault, layer_seen, layer_text};

use program::fault::EvaluateFault;
use reader::fault::ReadFault;
use std::fmt;

#[derive(Clone, Copy, PartialEq, Debug)]
pub enum BenchFault {
    Reading(ReadFault),
    NoProgram,
    Evaluating(EvaluateFault),
}

// The part of the tool that a refusal comes from.
#[derive(Clone, Copy, PartialEq, Debug)]
pub enum FaultLayer {
    Text,
    Domain,
    Rule,
    Book,
    Program,
}

// As a refusal tells it.
impl fmt::Display for FaultLayer {
    ghost output = { λ layer. Some (layer_text (layer_seen layer)) };

    fn fmt<W: fmt::Write>(&self, f: &mut fmt::Formatter<W>) -> fmt::Result {
        f.write_str(match self {
            FaultLayer::Text => "text",
            FaultLayer::Domain => "domain",
            FaultLayer::Rule => "rule",
            FaultLayer::Book => "book",
            FaultLayer::Program => "program",
        })
    }
}

impl From<ReadFault> for BenchFault {
    ghost from_gives = { λ e r. r ≡ Reading e };

    fn from(e: ReadFault) -> BenchFault {
        BenchFault::Reading(e)
    }
}

impl From<EvaluateFault> for BenchFault {
    ghost from_gives = { λ e r. r ≡ Evaluating e };

    fn from(e: EvaluateFault) -> BenchFault {
        BenchFault::Evaluating(e)
    }
}

impl BenchFault {
    // The number by which a refusal is told.
    pub fn number(self) -> u8
        ensures { result ≡ (bench_fault self).number }
    {
        match self {
            BenchFault::Reading(fault) => fault.number(),
            BenchFault::NoProgram => 13,
            BenchFault::Evaluating(fault) => fault.number(),
        }
    }

    pub fn layer(self) -> FaultLayer
        ensures { layer_seen result ≡ (bench_fault self).layer }
    {
        match self {
            BenchFault::Reading(ReadFault::Text(_)) => FaultLayer::Text,
            BenchFault::Reading(ReadFault::Domain(_)) => FaultLayer::Domain,
            BenchFault::NoProgram => FaultLayer::Program,
            BenchFault::Evaluating(_) => FaultLayer::Program,
        }
    }

    // The line of the text, or 0.
    pub fn line(self) -> u16
        ensures { result ≡ (bench_fault self).line }
    {
        match self {
            BenchFault::Reading(fault) => fault.line(),
            BenchFault::NoProgram => 0,
            BenchFault::Evaluating(_) => 0,
        }
    }
}
