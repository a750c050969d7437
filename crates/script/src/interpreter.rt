// Works through a script item by item.
ghost use Rattle.std.specs.Prelude.{◌≡◌, None};
ghost use Rattle.std.specs.Option.{option_map};
ghost use Rattle.calls.specs.Bench.{Call};
ghost use Rattle.program.specs.View.{view as table_view};
ghost use Rattle.script.specs.Lines.{order_seen, line_seen, arguments_seen};
ghost use Rattle.script.specs.Shows.{without_rules};
ghost use Rattle.script.specs.Transcripts.{view, present, answer_seen, make_bench, compute_at, call_at, show_at, obey, step_of};

use crate::answer::{Answer, Refusal, Told};
use crate::command::{Arguments, Command, Computation, Line};
use bench::bench::Bench;
use domain::Domain;
use pile::{Blueprint, Pile};
use program::table::Table;

// The bench that the last accepted `bench` made.
#[derive(Drop)]
pub struct Interpreter {
    bench: Option<Bench<Pile>>,
}

impl Interpreter {
    pub fn new() -> Interpreter
        ensures { view result ≡ None }
    {
        Interpreter { bench: None }
    }

    // A refused bench keeps the former one.
    fn make_bench(&mut self, blueprint: Blueprint) -> Result<Answer, Refusal>
        ensures value { answer_seen (present (view self.new)) result ≡ (make_bench (view self.old) blueprint).answer }
        ensures after { view self.new ≡ (make_bench (view self.old) blueprint).after }
    {
        let pile = blueprint.build()?;
        let size = pile.size();
        self.bench = Some(Bench::new(pile));
        Ok(Answer::Bench(size))
    }

    fn compute(&self, number: u64, asked: Computation) -> Result<Answer, Refusal>
        ensures { answer_seen (present (view self.now)) result ≡ compute_at (view self.now) number asked }
    {
        let bench = self.bench.as_ref().ok_or(Refusal::ScriptError(number))?;
        let domain = bench.domain();
        let outcome = domain.compute(asked.operation, asked.marks, asked.first, asked.second);
        let broken = domain.broken(asked.operation, asked.first, asked.second);
        Ok(Answer::Computed(outcome, broken))
    }

    // A refused text keeps the former program.
    fn load(&mut self, number: u64, text: &[u8]) -> Result<Answer, Refusal>
        ensures value { answer_seen (present (view self.new)) result ≡ (call_at (view self.old) number (Call.load text.now)).answer }
        ensures after { view self.new ≡ (call_at (view self.old) number (Call.load text.now)).after }
    {
        let bench = self.bench.as_mut().ok_or(Refusal::ScriptError(number))?;
        bench.load(text)?;
        Ok(Answer::Loaded)
    }

    // The bench stays as it is, which is its state after the call.
    fn evaluate(&self, number: u64, arguments: Arguments) -> Result<Answer, Refusal>
        ensures value { answer_seen (present (view self.now)) result ≡ (call_at (view self.now) number (Call.evaluate (arguments_seen arguments).inputs (arguments_seen arguments).choices)).answer }
        ensures after { view self.now ≡ (call_at (view self.now) number (Call.evaluate (arguments_seen arguments).inputs (arguments_seen arguments).choices)).after }
    {
        let bench = self.bench.as_ref().ok_or(Refusal::ScriptError(number))?;
        let outcome = bench.evaluate(arguments.inputs.as_slice(), arguments.choices.as_slice())?;
        Ok(Answer::Evaluated(outcome))
    }

    fn show(&self, number: u64) -> Result<Answer, Refusal>
        ensures { answer_seen (present (view self.now)) result ≡ show_at (view self.now) number }
    {
        self.bench.as_ref().ok_or(Refusal::ScriptError(number))?;
        Ok(Answer::Shown)
    }

    fn obey(&mut self, number: u64, command: Command, text: &[u8]) -> Result<Answer, Refusal>
        ensures value { answer_seen (present (view self.new)) result ≡ (obey (view self.old) number (order_seen command) text.now).answer }
        ensures after { view self.new ≡ (obey (view self.old) number (order_seen command) text.now).after }
    {
        match command {
            Command::Bench(blueprint) => self.make_bench(blueprint),
            Command::Compute(asked) => self.compute(number, asked),
            Command::Load => self.load(number, text),
            Command::Evaluate(arguments) => self.evaluate(number, arguments),
            Command::Show => self.show(number),
        }
    }

    // What the line of a number is answered, with the text that follows it; a skipped line has no answer.
    pub fn step(&mut self, number: u64, line: Line, text: &[u8]) -> Option<Result<Answer, Refusal>>
        ensures value { option_map (answer_seen (present (view self.new))) result ≡ (step_of (view self.old) number (line_seen line) text.now).answer }
        ensures after { view self.new ≡ (step_of (view self.old) number (line_seen line) text.now).after }
    {
        match line {
            Line::Skipped => None,
            Line::Unreadable => Some(Err(Refusal::ScriptError(number))),
            Line::Obeyed(command) => Some(self.obey(number, command, text)),
        }
    }

    // The present program, if one was loaded.
    fn program(&self) -> Option<&Table>
        ensures { option_map (λ t. table_view t.now) result ≡ (present (view self.now)).loaded }
    {
        self.bench.as_ref()?.program()
    }

    // What is printed for an answer to what it was just asked.
    pub fn told(&self, answer: Result<Answer, Refusal>) -> Told<'_>
        ensures answer { result.answer ≡ answer }
        ensures program { without_rules (option_map (λ t. table_view t.now) result.program) ≡ present (view self.now) }
    {
        Told {
            answer,
            program: self.program(),
        }
    }
}
