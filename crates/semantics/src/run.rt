// A body run one instruction after the other.
ghost use Rattle.std.specs.Prelude.{◌≡◌, ◌<◌, length, OnErr, OnOk};
ghost use Rattle.semantics.specs.Programs.{head, left, nothing_yet, tail};
ghost use Rattle.semantics.specs.Values.{env};
ghost use Rattle.semantics.specs.Runs.{RunsOn};

use crate::Instruction;
use crate::step::step;
use domain::{Domain, Trapped};

// A run so far: the values of the records by their numbers, 0 where there is none yet, and the choices that are left.
#[derive(Drop)]
pub struct Run<'a, D, const N: usize> {
    domain: &'a D,
    inputs: &'a [u16],
    choices: &'a [u16],
    values: [u16; N],
    ghost long: { length values ≡ N },
}

impl<'a, D: Domain, const N: usize> Run<'a, D, N> {
    pub fn new(domain: &'a D, inputs: &'a [u16], choices: &'a [u16]) -> Self
        ensures domain { result.domain.now ≡ domain.now }
        ensures inputs { result.inputs.now ≡ inputs.now }
        ensures choices { result.choices.now ≡ choices.now }
        ensures values { env result.values ≡ nothing_yet }
    {
        Run {
            domain,
            inputs,
            choices,
            values: [0; N],
        }
    }

    // The choice that comes next, 0 where none is left, and those behind it.
    fn next_choice(&self) -> (u16, &'a [u16])
        ensures choice { result.0 ≡ head self.now.choices.now }
        ensures later { result.1.now ≡ tail self.now.choices.now }
    {
        match self.choices.split_first() {
            Some((choice, later)) => (*choice, later),
            None => (0, self.choices),
        }
    }

    // Evaluates the instruction in a record. A trap leaves the run as it was.
    pub fn take(&mut self, at: u8, instruction: Instruction) -> Result<(), Trapped>
        requires { at < N }
        ensures value { RunsOn (D.Domain.model self.old.domain.now) self.old.inputs.now (record { at = at; what = instruction }) (env self.old.values) self.old.choices.now (env self.new.values) self.new.choices.now result }
        ensures left { OnOk result (self.new.choices.now ≡ left instruction self.old.choices.now) }
        ensures domain { self.new.domain.now ≡ self.old.domain.now }
        ensures inputs { self.new.inputs.now ≡ self.old.inputs.now }
        ensures trapped { OnErr result (self.new ≡ self.old) }
    {
        let (choice, later) = self.next_choice();
        self.values[at as usize] = step(
            self.domain,
            instruction,
            self.inputs,
            &self.values,
            choice,
        )?;
        if instruction.is_freeze() {
            self.choices = later;
        }
        Ok(())
    }

    // The value of a record, or 0 where there is none.
    pub fn value(&self, at: u8) -> u16
        ensures { result ≡ env self.now.values at }
    {
        self.values.get(at as usize).copied().unwrap_or(0)
    }
}
