// Inputs and choices, as `evaluate` gives them.
ghost use Rattle.std.specs.Prelude.{◌≡◌, IfOk, []};
ghost use Rattle.std.specs.Option.{option_map};
ghost use Rattle.scan.specs.Pieces.{left};
ghost use Rattle.script.specs.Commands.{numbers, unended, with_inputs, inputs_before, evaluate_command};
ghost use Rattle.script.specs.Lines.{arguments_seen};

use crate::command::Arguments;
use crate::command::number::read_number;
use scan::Cursor;
use std::alloc::{AllocError, Global};

// The numbers that words begin with, and the word that ended them, if one did.
fn read_numbers<'a>(
    heap: Global,
    words: &mut Cursor<'a>,
) -> Result<(Vec<u16>, Option<&'a [u8]>), AllocError>
    ensures all { IfOk result (λ r. numbers [] (left words.old) ≡ unended r.0.items (option_map (λ w. w.now) r.1)) }
    ensures inputs { IfOk result (λ r. with_inputs [] (left words.old) ≡ inputs_before r.0.items (option_map (λ w. w.now) r.1) (left words.new)) }
{
    let mut numbers = Vec::new(heap);
    // Not a `for`, as the words behind the last number are passed on.
    while let Some(word) = words.next() {
        let Some(n) = read_number(word) else {
            return Ok((numbers, Some(word)));
        };
        numbers.push(n)?;
    }
    Ok((numbers, None))
}

// Numbers up to a `/`, and numbers after it.
pub fn evaluate_command(heap: Global, mut words: Cursor) -> Result<Option<Arguments>, AllocError>
    ensures { IfOk result (λ o. option_map arguments_seen o ≡ evaluate_command (left words.entry)) }
{
    let (inputs, end) = read_numbers(heap, &mut words)?;
    if end != Some(b"/".as_slice()) {
        return Ok(None);
    }
    let (choices, end) = read_numbers(heap, &mut words)?;
    if end.is_some() {
        return Ok(None);
    }
    Ok(Some(Arguments { inputs, choices }))
}
