// What programs, rules, fitting, rewriting and checking mean over any value domain, and the theorems about them.
#![tactic(auto)]

ghost use Rattle.std.specs.Prelude.{◌≡◌};
ghost use Rattle.vocabulary.specs.declared.operation.Operation.TheVariants.{Copy};
ghost use Rattle.semantics.specs.declared.Operand.TheVariants.{Constant};
ghost use Rattle.semantics.specs.Rules.{Contextual, StaysFormed, Convicted};
ghost use Rattle.semantics.specs.Fitting.{FittingExact};
ghost use Rattle.semantics.specs.Cases.{CheckingExact};
ghost use Rattle.semantics.specs.Changes.{PassMeets, RoomExact};
ghost use Rattle.semantics.specs.Programs.{is_freeze};
ghost use Rattle.semantics.specs.Samples.{Samples};

use domain::Domain;
use vocabulary::marks::Marks;
use vocabulary::operation::Operation;

pub mod rule;
pub mod run;
pub mod step;

// What an instruction reads: an input of the program, the instruction in a record, or a constant's code.
#[derive(Clone, Copy, PartialEq)]
pub enum Operand {
    Input(u8),
    Record(u8),
    Constant(u16),
}

// What stands in the place of an operand that an operation does not take. It is no case of its own, nor an `Option`: what is
// never read costs no test, and fitting and evaluation find the operands of every operation in the same places.
impl Default for Operand {
    ghost is_default = { λ o. o ≡ Constant 0 };

    fn default() -> Operand {
        Operand::Constant(0)
    }
}

#[derive(Clone, Copy)]
pub struct Instruction {
    pub operation: Operation,
    pub marks: Marks,
    pub first: Operand,
    pub second: Operand,
    pub third: Operand,
}

// What stands where there is no instruction: it copies 0.
impl Default for Instruction {
    ghost is_default = { λ i. i ≡ record { operation = Copy; marks = record { bits = 0 }; first = Constant 0; second = Constant 0; third = Constant 0 } };

    fn default() -> Instruction {
        Instruction {
            operation: Operation::Copy,
            marks: Marks::NONE,
            first: Operand::default(),
            second: Operand::default(),
            third: Operand::default(),
        }
    }
}

impl Instruction {
    // Whether it uses up a choice.
    pub fn is_freeze(self) -> bool
        ensures { result ≡ is_freeze self }
    {
        matches!(self.operation, Operation::Freeze)
    }
}

// Where a rule's target refines its source, rewriting refines wherever the rule fits; a refuted rule is convicted by its own source.
pub fn rewriting_refines<D: Domain>(domain: &D)
    ensures contextual { Contextual (D.Domain.model domain.now) }
    ensures stays { StaysFormed (D.Domain.model domain.now) }
    ensures convicted { Convicted (D.Domain.model domain.now) }
{}

// The search for a match and the search for a refuting case answer right.
pub fn searches_exact<D: Domain>(domain: &D)
    ensures fitting { FittingExact (D.Domain.model domain.now) }
    ensures checking { CheckingExact (D.Domain.model domain.now) }
{}

// A pass meets each instruction as it stood at its start, and 64 instructions suffice where there are records for the target.
pub fn passes_meet<D: Domain>(domain: &D)
    ensures meets { PassMeets (D.Domain.model domain.now) }
    ensures room { RoomExact (D.Domain.model domain.now) }
{}

// The definitions at work on the mistakes that tempt: one choice list for both sides, two freezes for one, a variable on what is removed.
pub fn samples_hold()
    ensures { Samples }
{}
