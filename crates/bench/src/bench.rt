// A bench over a value domain, and its calls.
ghost use Rattle.std.specs.Prelude.{◌≡◌, IfOk};
ghost use Rattle.std.specs.Option.{option_map};
ghost use Rattle.calls.specs.Bench.{Call};
ghost use Rattle.calls.specs.Histories.{fresh, answer, next, Promised, AnswersForLoaded};
ghost use Rattle.program.specs.View.{view};
ghost use Rattle.bench.specs.States.{state, load_answer, evaluate_answer};

use crate::fault::BenchFault;
use domain::{Domain, Outcome};
use program::table::Table;
use reader::program::read::read_program;

// The domain, and the program that was last loaded, as rewritten since.
#[derive(Drop)]
pub struct Bench<D> {
    domain: D,
    program: Option<Table>,
}

impl<D: Domain> Bench<D> {
    pub fn new(domain: D) -> Bench<D>
        ensures state { state result ≡ fresh }
        ensures domain { result.domain ≡ domain }
    {
        Bench {
            domain,
            program: None,
        }
    }

    pub fn domain(&self) -> &D
        ensures { result.now ≡ self.now.domain }
    {
        &self.domain
    }

    // Reads a program in place of the former one, which a refused text leaves as it was.
    pub fn load(&mut self, text: &[u8]) -> Result<(), BenchFault>
        ensures value { load_answer result ≡ answer (D.Domain.model self.old.domain) (state self.old) (Call.load text.now) }
        ensures after { state self.new ≡ next (D.Domain.model self.old.domain) (state self.old) (Call.load text.now) }
        ensures domain { self.new.domain ≡ self.old.domain }
        ensures promise { Promised (D.Domain.model self.old.domain) (state self.old) (Call.load text.now) (state self.new) }
    {
        let program = read_program(&self.domain, text)?;
        // The former table is filled anew, and none is made for each text.
        let mut table = self.program.take().unwrap_or_else(Table::new);
        table.load(program.body.as_slice(), program.inputs, program.result);
        self.program = Some(table);
        Ok(())
    }

    // The present program, if one was loaded.
    pub fn program(&self) -> Option<&Table>
        ensures { option_map (λ t. view t.now) result ≡ (state self.now).loaded }
    {
        self.program.as_ref()
    }

    // The outcome of the present program at these inputs and choices.
    pub fn evaluate(&self, inputs: &[u16], choices: &[u16]) -> Result<Outcome, BenchFault>
        ensures value { evaluate_answer result ≡ answer (D.Domain.model self.now.domain) (state self.now) (Call.evaluate inputs.now choices.now) }
        ensures after { state self.now ≡ next (D.Domain.model self.now.domain) (state self.now) (Call.evaluate inputs.now choices.now) }
        ensures promise { Promised (D.Domain.model self.now.domain) (state self.now) (Call.evaluate inputs.now choices.now) (state self.now) }
        ensures loaded { IfOk result (λ o. AnswersForLoaded (D.Domain.model self.now.domain) (state self.now) inputs.now o) }
    {
        let table = self.program.as_ref().ok_or(BenchFault::NoProgram)?;
        let outcome = table.evaluate(&self.domain, inputs, choices)?;
        Ok(outcome)
    }
}
