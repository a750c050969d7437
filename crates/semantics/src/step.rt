// One instruction evaluated.
ghost use Rattle.std.specs.Prelude.{◌≡◌};
ghost use Rattle.semantics.specs.Programs.{value, step};
ghost use Rattle.semantics.specs.Values.{env};

use crate::{Instruction, Operand};
use domain::{Domain, Outcome, Truth};
use vocabulary::operation::Operation;

// What an operand stands for, where `values` holds the value of record r at place r. A read past the end of either gives 0.
pub fn value(inputs: &[u16], values: &[u16], operand: Operand) -> u16
    ensures { result ≡ value inputs.now (env values.now) operand }
{
    match operand {
        Operand::Input(k) => inputs.get(k as usize).copied().unwrap_or(0),
        Operand::Record(r) => values.get(r as usize).copied().unwrap_or(0),
        Operand::Constant(code) => code,
    }
}

// What an instruction gives, where `choice` is what it chooses if it is a freeze.
pub fn step<D: Domain>(
    domain: &D,
    instruction: Instruction,
    inputs: &[u16],
    values: &[u16],
    choice: u16,
) -> Outcome
    ensures { result ≡ step (D.Domain.model domain.now) (value inputs.now (env values.now)) instruction choice }
{
    let a = value(inputs, values, instruction.first);
    match instruction.operation {
        Operation::Copy => Ok(a),
        Operation::Freeze => Ok(if domain.settled(a) { a } else { choice }),
        Operation::Select => Ok(match domain.truth(a) {
            Truth::Yes => value(inputs, values, instruction.second),
            Truth::No => value(inputs, values, instruction.third),
            Truth::Neither => domain.worst(),
        }),
        operation => {
            let b = value(inputs, values, instruction.second);
            domain.compute(operation, instruction.marks, a, b)
        }
    }
}
