// An operation on two numbers, as `compute` asks for it.
ghost use Rattle.std.specs.Prelude.{◌≡◌};
ghost use Rattle.scan.specs.Pieces.{left};
ghost use Rattle.script.specs.Commands.{two_numbers, compute_command};

use crate::command::Computation;
use crate::command::number::read_number;
use scan::Cursor;
use vocabulary::marks::Marks;
use vocabulary::operation::Operation;

// An operation on the number that a word writes and on that of the last word.
fn two_numbers(op: Operation, marks: Marks, first: &[u8], mut words: Cursor) -> Option<Computation>
    ensures { result ≡ two_numbers op marks.bits first.now (left words.entry) }
{
    let a = read_number(first)?;
    let b = read_number(words.next()?)?;
    words.is_ended().then_some(Computation {
        operation: op,
        marks,
        first: a,
        second: b,
    })
}

pub fn compute_command(mut words: Cursor) -> Option<Computation>
    ensures { result ≡ compute_command (left words.entry) }
{
    let op = Operation::named(words.next()?)?;
    if op.operand_count() != 2 {
        return None;
    }
    let mut marks = Marks::NONE;
    // Not a `for`, as the words behind the first number are passed on.
    while let Some(word) = words.next() {
        match Marks::named(word) {
            Some(mark) => marks = marks.union(mark),
            None => return two_numbers(op, marks, word, words),
        }
    }
    None
}
