// What an instruction line means where it stands, and its faults.
ghost use Rattle.std.specs.Prelude.{◌≡◌, [], ◌∷◌, take, false, OnOk};
ghost use Rattle.vocabulary.specs.Names.{operand_count};
ghost use Rattle.text.specs.Faults.{unless};
ghost use Rattle.text.specs.Forms.{Written as Spelt};
ghost use Rattle.text.specs.Instructions.{instruction, instruction_fault};
ghost use Rattle.reader.specs.ReadFaults.{answered, OnLine};
ghost use Rattle.reader.specs.Scopes.{known_names};
ghost use Rattle.reader.specs.Tokens.{seen, tokens, Spells};
ghost use Rattle.reader.specs.Meanings.{far, strange, some_far, some_strange, text_fault, meaning, meaning_at, instruction_of};

use crate::facts::unwritten_marks;
use crate::fault::{ReadFault, TextFault, on_line};
use crate::scope::Scope;
use crate::token::Token;
use crate::written::Written;
use domain::Domain;
use domain::fault::{DomainFault, literal_code, settled_code};
use semantics::{Instruction, Operand};
use vocabulary::marks::Marks;
use vocabulary::operation::Operation;

// Whether a number is outside -128 to 255, or a code over 65,535.
fn is_outside(token: Token) -> bool
    ensures { result ≡ far (seen token.entry) }
{
    match token {
        Token::Number(n) => n < -128 || n > 255,
        Token::Code(c) => c > 65535,
        Token::Name(_) | Token::Word(_) => false,
    }
}

impl<'a> Written<'a> {
    // The places of operands, of which the operation takes the first ones.
    fn places(&self) -> [Token<'a>; 3]
        ensures { result ≡ self.now.first ∷ self.now.second ∷ self.now.third ∷ [] }
    {
        [self.first, self.second, self.third]
    }
}

// The operands that an operation takes, by their places.
fn taken<'p, 'a>(operation: Operation, places: &'p [Token<'a>]) -> &'p [Token<'a>]
    ensures { result.now ≡ take (operand_count operation) places.now }
{
    let count = operation.operand_count() as usize;
    places.get(..count).unwrap_or(places)
}

fn number_outside(written: &Written) -> bool
    ensures { result ≡ some_far written.now }
{
    let places = written.places();
    taken(written.operation, &places)
        .iter()
        .any(|&token| is_outside(token))
}

impl<'a> Scope<'a> {
    // Whether a name is not readable.
    fn is_unknown(&self, token: Token) -> bool
        ensures { result ≡ strange (known_names self.now) (seen token.entry) }
    {
        match token {
            Token::Name(name) => !self.knows(name),
            _ => false,
        }
    }

    // Whether an operand is a name that is not readable.
    fn some_unknown(&self, written: &Written) -> bool
        ensures { result ≡ some_strange (known_names self.now) written.now }
    {
        let places = written.places();
        taken(written.operation, &places)
            .iter()
            .any(|&token| self.is_unknown(token))
    }

    // The written marks, or the first fault that takes no domain to tell.
    fn well_written(&self, too_many: bool, written: &Written) -> Result<Marks, TextFault>
        ensures { result ≡ text_fault too_many (known_names self.now) written.now }
    {
        if number_outside(written) {
            return Err(TextFault::NumberOutside);
        }
        if too_many {
            return Err(TextFault::TooMany);
        }
        // A name that is not readable here, or a name given again.
        if self.some_unknown(written) || self.knows(written.name) {
            return Err(TextFault::BadName);
        }
        written.marks.ok_or(TextFault::BadMark)
    }

    // What an operand means.
    fn meaning<D: Domain>(&self, domain: &D, token: Token) -> Result<Operand, DomainFault>
        requires { far (seen token) ≡ false }
        ensures { result ≡ meaning (D.Domain.model domain.now) (known_names self.now) (seen token.entry) }
    {
        match token {
            Token::Name(name) => Ok(self.named(name)),
            Token::Number(n) => Ok(Operand::Constant(literal_code(domain, n as i16)?)),
            Token::Code(c) => Ok(Operand::Constant(settled_code(domain, c as u16)?)),
            Token::Word(_) => Ok(Operand::default()),
        }
    }

    // What the operand in a place means, or the default where the operation takes none.
    fn meaning_at<D: Domain>(
        &self,
        domain: &D,
        written: &Written,
        place: usize,
    ) -> Result<Operand, DomainFault>
        requires { some_far written.now ≡ false }
        ensures { result ≡ meaning_at (D.Domain.model domain.now) (known_names self.now) (tokens written.now) place }
    {
        let places = written.places();
        match taken(written.operation, &places).get(place) {
            Some(&token) => self.meaning(domain, token),
            None => Ok(Operand::default()),
        }
    }

    // The instruction that a line with these marks means.
    fn instruction<D: Domain>(
        &self,
        domain: &D,
        marks: Marks,
        written: &Written,
    ) -> Result<Instruction, DomainFault>
        requires { some_far written.now ≡ false }
        ensures { result ≡ instruction_of (D.Domain.model domain.now) (known_names self.now) marks written.now }
    {
        let first = self.meaning_at(domain, written, 0)?;
        let second = self.meaning_at(domain, written, 1)?;
        let third = self.meaning_at(domain, written, 2)?;
        Ok(Instruction {
            operation: written.operation,
            marks: unwritten_marks(written.operation).union(marks),
            first,
            second,
            third,
        })
    }
}

// The instruction that a line means where it stands, or the smallest of the line's faults.
pub fn read_instruction<D: Domain>(
    domain: &D,
    scope: &Scope,
    line: u16,
    too_many: bool,
    written: &Written,
) -> Result<Instruction, ReadFault>
    ensures value { (s : Spelt) → Spells written.now s → answered result ≡ unless (instruction_fault (D.Domain.model domain.now) too_many (known_names scope.now) s) (instruction (D.Domain.model domain.now) (known_names scope.now) s) }
    ensures line { OnLine line result }
    ensures room { OnOk result (too_many ≡ false) }
{
    let marks = on_line(line, scope.well_written(too_many, written))?;
    let instruction = on_line(line, scope.instruction(domain, marks, written))?;
    Ok(instruction)
}
