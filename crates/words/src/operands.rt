// Two codes of words under an operation.
ghost use Rattle.std.specs.Prelude.{◌≡◌, ◌^◌, ◌<◌, ◌≤◌, ◌&&◌, pos, unsigned_abs, if◌then◌else◌, is_some, IfSome, nat_lt};
ghost use Rattle.std.specs.Ordering.{int_eq};
ghost use Rattle.words.specs.Words.{codes_of, is_code, least_by_minus_one, rest, result_of, breaks};

use crate::Words;
use domain::{Outcome, Trapped};
use vocabulary::marks::Marks;
use vocabulary::operation::Operation;

// Two codes of words, as an operation takes them.
#[derive(Clone, Copy)]
pub struct Operands {
    words: Words,
    a: u16,
    b: u16,
    ghost a_is_code: { a < codes_of words.width },
    ghost b_is_code: { b < codes_of words.width },
}

impl Operands {
    // The two as operands, if both are codes.
    pub fn new(words: Words, a: u16, b: u16) -> Option<Operands>
        ensures codes { is_some result ≡ (is_code words.width a && is_code words.width b) }
        ensures words { IfSome result (λ operands. operands.words ≡ words) }
        ensures a { IfSome result (λ operands. operands.a ≡ a) }
        ensures b { IfSome result (λ operands. operands.b ≡ b) }
    {
        if words.is_code(a) && words.is_code(b) {
            Some(Operands { words, a, b })
        } else {
            None
        }
    }

    // The power of two by which a shift multiplies or divides; none from the width on.
    fn power(self) -> Option<i32>
        ensures value { result ≡ (if nat_lt self.b self.words.width then Some (pos (2 ^ self.b)) else None) }
        ensures bound { IfSome result (λ power. unsigned_abs power ≤ 128) }
    {
        (self.b < u16::from(self.words.width)).then(|| 1 << self.b)
    }

    // Whether `a` is the least code and `b` reads as -1: their quotient is past the signed range.
    fn is_least_by_minus_one(self) -> bool
        ensures { result ≡ least_by_minus_one self.words.width self.a self.b }
    {
        self.a == self.words.least() && self.b == self.words.codes() - 1
    }

    // The outcome of an operation.
    pub fn result(self, op: Operation) -> Outcome
        ensures { result ≡ result_of self.words.width op self.a self.b }
    {
        let Operands { words, a, b } = self;
        let (x, y) = (i32::from(a), i32::from(b));
        match op {
            Operation::Add => Ok(words.residue(x + y)),
            Operation::Sub => Ok(words.residue(x - y)),
            Operation::Mul => Ok(words.residue(x * y)),
            Operation::Shl => Ok(self.power().map_or(0, |power| words.residue(x * power))),
            // a shift by more than 8 gives what one by 8 gives
            Operation::Lshr => Ok(a >> b.min(8)),
            Operation::Ashr => Ok(words.residue(words.signed(a) >> b.min(8))),
            Operation::Udiv | Operation::Urem | Operation::Sdiv | Operation::Srem if b == 0 => {
                Err(Trapped)
            }
            Operation::Udiv => Ok(a / b),
            Operation::Urem => Ok(a % b),
            Operation::Sdiv if self.is_least_by_minus_one() => Err(Trapped),
            Operation::Sdiv => Ok(words.residue(words.signed(a) / words.signed(b))),
            Operation::Srem => Ok(words.residue(words.signed(a) % words.signed(b))),
            Operation::And => Ok(a & b),
            Operation::Or => Ok(a | b),
            Operation::Xor => Ok(a ^ b),
            Operation::Eq => Ok(u16::from(a == b)),
            Operation::Ne => Ok(u16::from(a != b)),
            Operation::Ult => Ok(u16::from(a < b)),
            Operation::Ule => Ok(u16::from(a <= b)),
            Operation::Slt => Ok(u16::from(words.signed(a) < words.signed(b))),
            Operation::Sle => Ok(u16::from(words.signed(a) <= words.signed(b))),
            Operation::Copy | Operation::Freeze | Operation::Select => Err(Trapped),
        }
    }

    // The marks that a shift down of a reading of `a` breaks: range alone from the width on.
    fn shift_breaks(self, reading: i32) -> Marks
        ensures { result.bits ≡ (if nat_lt self.b self.words.width then rest reading (pos (2 ^ self.b)) else 8) }
    {
        self.power()
            .map_or(Marks::RANGE, |power| rest(reading, power))
    }

    // The marks that an operation breaks.
    pub fn breaks(self, op: Operation) -> Marks
        ensures { result.bits ≡ breaks self.words.width op self.a self.b }
    {
        let Operands { words, a, b } = self;
        let (x, y) = (i32::from(a), i32::from(b));
        match op {
            Operation::Add => words.overflow(x + y, words.signed(a) + words.signed(b)),
            Operation::Sub => words.overflow(x - y, words.signed(a) - words.signed(b)),
            Operation::Mul => words.overflow(x * y, words.signed(a) * words.signed(b)),
            Operation::Shl => match self.power() {
                Some(power) => words.overflow(x * power, words.signed(a) * power),
                None => Marks::RANGE,
            },
            Operation::Lshr => self.shift_breaks(x),
            Operation::Ashr => self.shift_breaks(words.signed(a)),
            Operation::Udiv => rest(x, y),
            Operation::Sdiv if self.is_least_by_minus_one() => Marks::NONE,
            Operation::Sdiv => rest(words.signed(a), words.signed(b)),
            _ => Marks::NONE,
        }
    }
}

// The mark of a division that leaves a rest. By zero there is none.
fn rest(a: i32, b: i32) -> Marks
    ensures { result.bits ≡ (if int_eq b (pos 0) then 0 else rest a b) }
{
    match a.checked_rem(b) {
        None | Some(0) => Marks::NONE,
        Some(_) => Marks::EXACT,
    }
}
