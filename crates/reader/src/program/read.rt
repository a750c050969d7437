// Reads the text of a program in place, line by line.
ghost use Rattle.std.specs.Prelude.{◌≡◌, false, List, Some};
ghost use Rattle.scan.specs.Pieces.{Bytes, left};
ghost use Rattle.text.specs.Words.{each, name};
ghost use Rattle.text.specs.Faults.{line_step};
ghost use Rattle.text.specs.Forms.{Form as Shape, Written as Spelt};
ghost use Rattle.text.specs.ProgramTexts.{nothing_read, inputs_line, body_line, result_line, program_step, program_end, read_program};
ghost use Rattle.reader.specs.declared.program.Section.TheVariants.{Body};
ghost use Rattle.reader.specs.Tokens.{Spells, Forms};
ghost use Rattle.reader.specs.Inputs.{inputs_of, tabled};
ghost use Rattle.reader.specs.ReadFaults.{left_at, OnLine};
ghost use Rattle.reader.specs.NameTables.{names_in};
ghost use Rattle.reader.specs.Readings.{reading_of};
ghost use Rattle.reader.specs.Programs.{read_of};

use crate::fault::{ReadFault, TextFault, on_line};
use crate::form::{Form, is_skipped, read_form};
use crate::instruction::read_instruction;
use crate::names::Names;
use crate::program::{ProgramText, Reading, Section};
use crate::scope::Scope;
use crate::token::name_of;
use crate::written::Written;
use copy_vec::CopyVec;
use domain::Domain;
use scan::{Cursor, lines};

// Adds the names of an `in` line to a table: at most eight, and each once.
fn read_inputs<'a>(names: &mut Names<'a>, words: Cursor<'a>) -> Result<(), TextFault>
    ensures { tabled (names_in names.new) result ≡ inputs_of (names_in names.old) false (left words.entry) }
{
    let mut repeated = false;
    for word in words {
        if names.len() >= 8 {
            return Err(TextFault::TooMany);
        }
        let name = name_of(word).ok_or(TextFault::NoForm)?;
        repeated |= names.has(name);
        names.push(name);
    }
    if repeated {
        return Err(TextFault::BadName);
    }
    Ok(())
}

impl<'a> Reading<'a> {
    fn new() -> Reading<'a>
        ensures { reading_of result ≡ nothing_read }
    {
        Reading {
            section: Section::Start,
            scope: Scope::new(),
            body: CopyVec::new(),
            result: 0,
        }
    }

    fn take_inputs(&mut self, line: u16, words: Cursor<'a>) -> Result<(), ReadFault>
        ensures value { (ns : List Bytes) → each name (left words.entry) ≡ Some ns → left_at (reading_of self.new) result ≡ inputs_line (reading_of self.old) ns }
        ensures line { OnLine line result }
    {
        self.scope.variables = Names::new();
        on_line(line, read_inputs(&mut self.scope.variables, words))?;
        self.section = Section::Body;
        Ok(())
    }

    fn take_instruction<D: Domain>(
        &mut self,
        domain: &D,
        line: u16,
        written: Written<'a>,
    ) -> Result<(), ReadFault>
        requires { self.old.section ≡ Body }
        ensures value { (s : Spelt) → Spells written.entry s → left_at (reading_of self.new) result ≡ body_line (D.Domain.model domain.now) (reading_of self.old) s }
        ensures line { OnLine line result }
    {
        let full = self.body.is_full();
        let instruction = read_instruction(domain, &self.scope, line, full, &written)?;
        self.body.push(instruction);
        self.scope.instructions.push(written.name);
        Ok(())
    }

    // The instruction of a name is the result.
    fn take_result(&mut self, line: u16, name: &[u8]) -> Result<(), ReadFault>
        ensures value { left_at (reading_of self.new) result ≡ result_line (reading_of self.old).body (reading_of self.old) name.now }
        ensures line { OnLine line result }
    {
        if self.body.is_empty() {
            return Err(ReadFault::text(line, TextFault::NoForm));
        }
        match self.scope.instructions.place(name) {
            Some(k) => {
                self.result = k as u8 + 1;
                self.section = Section::End;
                Ok(())
            }
            None => Err(ReadFault::text(line, TextFault::BadName)),
        }
    }

    // One line in its section; every other form is out of order there. Sections follow the lines of the text, which come one by one.
    fn take<D: Domain>(&mut self, domain: &D, line: u16, form: Form<'a>) -> Result<(), ReadFault>
        ensures value { (f : Shape) → Forms form.entry f → left_at (reading_of self.new) result ≡ program_step (D.Domain.model domain.now) (reading_of self.old) f }
        ensures line { OnLine line result }
    {
        match (self.section, form) {
            (Section::Start, Form::In(words)) => self.take_inputs(line, words),
            (Section::Body, Form::Instruction(written)) => {
                self.take_instruction(domain, line, written)
            }
            (Section::Body, Form::Ret(name)) => self.take_result(line, name),
            _ => Err(ReadFault::text(line, TextFault::NoForm)),
        }
    }

    // A line of the text; a skipped one says nothing.
    fn take_line<D: Domain>(
        &mut self,
        domain: &D,
        number: u16,
        line: &'a [u8],
    ) -> Result<(), ReadFault>
        ensures value { left_at (reading_of self.new) result ≡ line_step (program_step (D.Domain.model domain.now)) (reading_of self.old) line.now }
        ensures line { OnLine number result }
    {
        if is_skipped(line) {
            return Ok(());
        }
        match read_form(line) {
            Some(form) => self.take(domain, number, form),
            None => Err(ReadFault::text(number, TextFault::NoForm)),
        }
    }

    // The program, where the text has ended behind `ret`.
    fn finish(self, number: u16) -> Result<ProgramText, ReadFault>
        ensures { read_of result ≡ program_end (reading_of self.entry) number }
    {
        match self.section {
            Section::End => Ok(ProgramText {
                inputs: self.scope.variables.len() as u8,
                body: self.body,
                result: self.result,
            }),
            _ => Err(ReadFault::text(number, TextFault::NoForm)),
        }
    }
}

// The program that a text gives, or the smallest fault of the first line that has one.
pub fn read_program<D: Domain>(domain: &D, text: &[u8]) -> Result<ProgramText, ReadFault>
    ensures { read_of result ≡ read_program (D.Domain.model domain.now) text.now }
{
    if text.len() > 4096 {
        return Err(ReadFault::text(0, TextFault::TooLong));
    }
    let mut reading = Reading::new();
    // Counted here, as the number behind the last line is told too.
    let mut number = 1;
    for line in lines(text) {
        reading.take_line(domain, number, line)?;
        number += 1;
    }
    reading.finish(number)
}
