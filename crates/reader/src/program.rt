// Texts of programs.
ghost use Rattle.std.specs.Prelude.{◌≡◌, length};
ghost use Rattle.copy_vec.specs.Items.{items};
ghost use Rattle.reader.specs.NameTables.{names_in};

use crate::scope::Scope;
use copy_vec::CopyVec;
pub use read::read_program;
use semantics::Instruction;

pub mod read;

// A program as a text gives it: so many inputs, its instructions in the records 1, 2, 3, …, and the record of its result.
#[derive(Clone, Copy)]
pub struct ProgramText {
    pub inputs: u8,
    pub body: CopyVec<Instruction, 64>,
    pub result: u8,
}

// Where in the text a line stands.
#[derive(Clone, Copy)]
enum Section {
    Start,
    Body,
    End,
}

// What the lines so far say.
#[derive(Clone, Copy)]
struct Reading<'a> {
    section: Section,
    scope: Scope<'a>,
    body: CopyVec<Instruction, 64>,
    result: u8,
    ghost all_named: { length (names_in scope.instructions) ≡ length (items body) },
}
