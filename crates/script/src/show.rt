// The present program and the book, as `show` prints them.
ghost use Rattle.std.specs.Prelude.{Some};
ghost use Rattle.std.specs.Option.{option_map};
ghost use Rattle.semantics.specs.Programs.{records as records_of};
ghost use Rattle.program.specs.View.{view};
ghost use Rattle.script.specs.Answers.{numbers_text};
ghost use Rattle.script.specs.Shows.{operand_text, operands_text, operands, placed_text, body_text, loaded_text, without_rules, show_text};

use crate::marks::WrittenMarks;
use program::table::Table;
use semantics::{Instruction, Operand};
use std::fmt;

// An operand, behind a space.
#[derive(Clone, Copy)]
struct OperandWord(Operand);

impl fmt::Display for OperandWord {
    ghost output = { λ o. Some (operand_text o.0) };

    fn fmt<W: fmt::Write>(&self, f: &mut fmt::Formatter<W>) -> fmt::Result {
        match self.0 {
            Operand::Input(input) => {
                let place = u16::from(input) + 1;
                write!(f, " i{place}")
            }
            Operand::Record(record) => write!(f, " r{record}"),
            Operand::Constant(code) => write!(f, " #{code}"),
        }
    }
}

// As many operands as the operation takes.
#[derive(Clone, Copy)]
struct Operands(Instruction);

impl fmt::Display for Operands {
    ghost output = { λ i. Some (operands_text (operands i.0)) };

    fn fmt<W: fmt::Write>(&self, f: &mut fmt::Formatter<W>) -> fmt::Result {
        let Instruction {
            operation,
            first,
            second,
            third,
            ..
        } = self.0;
        let first = OperandWord(first);
        let second = OperandWord(second);
        let third = OperandWord(third);
        match operation.operand_count() {
            1 => write!(f, "{first}"),
            2 => write!(f, "{first}{second}"),
            _ => write!(f, "{first}{second}{third}"),
        }
    }
}

// An instruction in its record.
#[derive(Clone, Copy)]
struct Placed {
    at: u8,
    instruction: Instruction,
}

impl fmt::Display for Placed {
    ghost output = { λ p. Some (placed_text (record { at = p.at; what = p.instruction })) };

    fn fmt<W: fmt::Write>(&self, f: &mut fmt::Formatter<W>) -> fmt::Result {
        let Placed { at, instruction } = *self;
        let marks = WrittenMarks(instruction.marks);
        writeln!(
            f,
            "{at} {}{marks}{}",
            instruction.operation,
            Operands(instruction)
        )
    }
}

// A line for each instruction.
#[derive(Clone, Copy)]
struct Body<'a>(&'a Table);

impl fmt::Display for Body<'_> {
    ghost output = { λ b. Some (body_text (view b.0.now).program.body) };

    fn fmt<W: fmt::Write>(&self, f: &mut fmt::Formatter<W>) -> fmt::Result {
        for (at, instruction) in self.0.window() {
            write!(f, "{}", Placed { at, instruction })?;
        }
        Ok(())
    }
}

// The numbers of the free records.
#[derive(Clone, Copy)]
struct Free<'a>(&'a Table);

impl fmt::Display for Free<'_> {
    ghost output = { λ l. Some (numbers_text (view l.0.now).free) };

    fn fmt<W: fmt::Write>(&self, f: &mut fmt::Formatter<W>) -> fmt::Result {
        for (at, _) in self.0.free_window() {
            write!(f, " {at}")?;
        }
        Ok(())
    }
}

// A loaded program and its free records.
#[derive(Clone, Copy)]
struct Loaded<'a>(&'a Table);

impl fmt::Display for Loaded<'_> {
    ghost output = { λ l. Some (loaded_text (view l.0.now)) };

    fn fmt<W: fmt::Write>(&self, f: &mut fmt::Formatter<W>) -> fmt::Result {
        let table = self.0;
        let inputs = table.inputs();
        let count = table.count();
        let result = table.result();
        writeln!(f, "program {inputs} {count} {result}")?;
        writeln!(f, "{}free{}", Body(table), Free(table))
    }
}

// The present program, if there is one, and a book without rules.
#[derive(Clone, Copy)]
pub struct Present<'a>(pub Option<&'a Table>);

impl fmt::Display for Present<'_> {
    ghost output = { λ p. Some (show_text (without_rules (option_map (λ t. view t.now) p.0))) };

    fn fmt<W: fmt::Write>(&self, f: &mut fmt::Formatter<W>) -> fmt::Result {
        match self.0 {
            Some(table) => write!(f, "{}", Loaded(table))?,
            None => writeln!(f, "program none")?,
        }
        write!(f, "book")
    }
}
