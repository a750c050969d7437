// The program of a table evaluated.
ghost use Rattle.std.specs.Prelude.{◌≡◌};
ghost use Rattle.semantics.specs.Programs.{freezes, outcome, evaluation};
ghost use Rattle.program.specs.Faults.{answered};
ghost use Rattle.program.specs.View.{view};

use crate::codes::{all_codes, all_settled};
use crate::fault::EvaluateFault;
use crate::table::Table;
use domain::{Domain, Outcome};
use semantics::run::Run;

impl Table {
    // The outcome of the program at these inputs and choices, or why there is none.
    pub fn evaluate<D: Domain>(
        &self,
        domain: &D,
        inputs: &[u16],
        choices: &[u16],
    ) -> Result<Outcome, EvaluateFault>
        ensures { answered result ≡ evaluation (D.Domain.model domain.now) (view self.now).program inputs.now choices.now }
    {
        if inputs.len() != self.inputs as usize || choices.len() != self.count_freezes() {
            return Err(EvaluateFault::WrongCount);
        }
        if !all_codes(domain, inputs) || !all_settled(domain, choices) {
            return Err(EvaluateFault::WrongCode);
        }
        Ok(self.run(domain, inputs, choices))
    }

    // How many choices a run uses up.
    fn count_freezes(&self) -> usize
        ensures { result ≡ freezes (view self.now).program.body }
    {
        self.window()
            .filter(|(_, instruction)| instruction.is_freeze())
            .count()
    }

    // The outcome of a run, where inputs and choices that are missing count as 0.
    fn run<D: Domain>(&self, domain: &D, inputs: &[u16], choices: &[u16]) -> Outcome
        ensures { result ≡ outcome (D.Domain.model domain.now) (view self.now).program inputs.now choices.now }
    {
        // the numbers of the records begin at 1
        let mut run = Run::<D, 65>::new(domain, inputs, choices);
        for (at, instruction) in self.window() {
            run.take(at, instruction)?;
        }
        Ok(run.value(self.result))
    }
}
