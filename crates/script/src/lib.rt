// Scripts that ask value domains, load programs and evaluate them, and what is printed for them.
#![tactic(auto)]

ghost use Rattle.std.specs.Prelude.{◌≡◌, ◌++◌, IfOk, string_bytes, OnOk};
ghost use Rattle.std.specs.Option.{option_map};
ghost use Rattle.script.specs.Transcripts.{view, present, answer_seen, printed, output};

use answer::{Answer, Refusal};
use command::read_line;
use interpreter::Interpreter;
use scan::split_line;
use std::alloc::{AllocError, Global};

pub mod answer;
pub mod command;
pub mod interpreter;
pub mod marks;
mod show;
pub mod texts;

// Prints an answer and a line feed, or nothing.
fn print(
    out: &mut String,
    interpreter: &Interpreter,
    answer: Option<Result<Answer, Refusal>>,
) -> Result<(), AllocError>
    ensures { OnOk result (string_bytes out.new ≡ string_bytes out.old ++ printed (option_map (answer_seen (present (view interpreter.now))) answer)) }
{
    match answer {
        Some(answer) => writeln!(out, "{}", interpreter.told(answer)),
        None => Ok(()),
    }
}

// All that is printed for a script.
pub fn run(heap: Global, script: &[u8]) -> Result<String, AllocError>
    ensures { IfOk result (λ out. string_bytes out ≡ output script.now) }
{
    let mut out = String::new(heap);
    let mut interpreter = Interpreter::new();
    let mut rest = script;
    let mut number: u64 = 1;
    // Not by `lines`, as a text behind a line is taken from what is left.
    while !rest.is_empty() {
        let (line, after) = split_line(rest);
        let line = read_line(heap, line)?;
        let text = line.text_in(after);
        let answer = interpreter.step(number, line, text.bytes);
        print(&mut out, &interpreter, answer)?;
        rest = text.rest;
        number += 1 + text.lines;
    }
    Ok(out)
}
