// The commands of a script, a line each.
ghost use Rattle.std.specs.Prelude.{◌≡◌, ◌+◌, ◌≤◌, [], length, if◌then◌else◌, IfOk, ◌==◌, slice_index};
ghost use Rattle.std.specs.Option.{option_map};
ghost use Rattle.scan.specs.Pieces.{left, whole_lines};
ghost use Rattle.script.specs.Items.{has_text};
ghost use Rattle.script.specs.Lines.{order_seen, line_seen, plain_order, order_named, line_read};
ghost use Rattle.script.specs.TextLines.{text_of, behind_text, lines_passed};

use crate::texts::{Text, split_text};
use benches::bench_command;
use computing::compute_command;
use evaluating::evaluate_command;
use pile::Blueprint;
use scan::{Cursor, Separators};
use std::alloc::{AllocError, Global};
use vocabulary::marks::Marks;
use vocabulary::operation::Operation;

mod benches;
mod computing;
mod evaluating;
mod number;

// An operation on two numbers.
#[derive(Clone, Copy)]
pub struct Computation {
    pub operation: Operation,
    pub marks: Marks,
    pub first: u16,
    pub second: u16,
}

// What a program is evaluated with.
#[derive(Drop)]
pub struct Arguments {
    pub inputs: Vec<u16>,
    pub choices: Vec<u16>,
}

#[derive(Drop)]
pub enum Command {
    Bench(Blueprint),
    Compute(Computation),
    // the program's text follows
    Load,
    Evaluate(Arguments),
    Show,
}

// What a line of a script is. Not an option of a result: `read_line` would answer one inside another result, for want of memory.
#[derive(Drop)]
pub enum Line {
    Skipped,
    Obeyed(Command),
    Unreadable,
}

impl Line {
    // The text at the front of the script behind the line, if the line wants one, and otherwise none of it.
    pub fn text_in<'a>(&self, script: &'a [u8]) -> Text<'a>
        ensures bytes { result.bytes.now ≡ (if has_text (line_seen self.now) then text_of (whole_lines script.now) else []) }
        ensures rest { whole_lines result.rest.now ≡ (if has_text (line_seen self.now) then behind_text (whole_lines script.now) else whole_lines script.now) }
        ensures lines { result.lines ≡ (if has_text (line_seen self.now) then lines_passed (whole_lines script.now) else 0) }
        ensures bound { result.lines + length result.rest.now ≤ length script.now }
    {
        match self {
            Line::Obeyed(Command::Load) => split_text(script),
            _ => Text {
                bytes: b"",
                rest: script,
                lines: 0,
            },
        }
    }
}

// The commands that hold no list. Names are tested one by one: a `match` on byte strings leaves its proof open.
fn plain_command(name: &[u8], words: Cursor) -> Option<Command>
    ensures { option_map order_seen result ≡ plain_order name.now (left words.entry) }
{
    if name == b"bench".as_slice() {
        return bench_command(words).map(Command::Bench);
    }
    if name == b"compute".as_slice() {
        return compute_command(words).map(Command::Compute);
    }
    if name == b"load".as_slice() && words.is_ended() {
        return Some(Command::Load);
    }
    if name == b"show".as_slice() && words.is_ended() {
        return Some(Command::Show);
    }
    None
}

fn read_command(heap: Global, name: &[u8], words: Cursor) -> Result<Option<Command>, AllocError>
    ensures { IfOk result (λ o. option_map order_seen o ≡ order_named name.now (left words.entry)) }
{
    if name != b"evaluate".as_slice() {
        return Ok(plain_command(name, words));
    }
    Ok(evaluate_command(heap, words)?.map(Command::Evaluate))
}

// What a line commands; one without a word, or whose first word begins with `#`, is skipped.
pub fn read_line(heap: Global, line: &[u8]) -> Result<Line, AllocError>
    ensures { IfOk result (λ l. line_seen l ≡ line_read line.now) }
{
    let mut words = Cursor::new(line, Separators::Spaces);
    let Some(name) = words.next() else {
        return Ok(Line::Skipped);
    };
    if begins_comment(name) {
        return Ok(Line::Skipped);
    }
    let command = read_command(heap, name, words)?;
    Ok(command.map_or(Line::Unreadable, Line::Obeyed))
}

fn begins_comment(word: &[u8]) -> bool
    ensures { result ≡ (slice_index word.now 0 == 35) }
{
    word.first() == Some(&b'#')
}
