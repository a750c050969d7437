// Words of a width from 1 to 8.
#![tactic(auto)]

ghost use Rattle.std.specs.Prelude.{◌≡◌, ◌+◌, ◌<◌, ◌≤◌, ◌↔◌, pos, unsigned_abs, IsOk, IfOk, IfErr};
ghost use Rattle.domain.specs.declared.fault.DomainFault.TheVariants.{WrongWidth};
ghost use Rattle.words.specs.Arithmetic.{Exact};
ghost use Rattle.words.specs.Words.{codes_of, least_of, is_code, signed, residue, in_unsigned, in_signed, overflow, words};
ghost use Rattle.words.specs.WordLaws.{words_lawful};

use domain::fault::DomainFault;
use domain::{Domain, Outcome, Trapped, Truth};
use operands::Operands;
use vocabulary::marks::Marks;
use vocabulary::operation::Operation;

mod operands;

// Words of one width: codes are 0 to 2^width - 1, and each refines only itself.
#[derive(Clone, Copy, PartialEq, Eq, Debug)]
pub struct Words {
    width: u8,
    ghost low: { 1 ≤ width },
    ghost high: { width ≤ 8 },
}

impl Words {
    // Words of a width from 1 to 8; another width is refused.
    #[tactic(auto, using(crate::specs::ArithmeticLemmas::words_exact))]
    pub fn new(width: u16) -> Result<Words, DomainFault>
        ensures accepted { IsOk result ↔ ((1 ≤ width) × (width ≤ 8)) }
        ensures ok { IfOk result (λ words. words.width ≡ width) }
        ensures refused { IfErr result (λ fault. fault ≡ WrongWidth) }
        ensures meaning { 1 ≤ width → Exact width }
    {
        match width {
            1..=8 => Ok(Words { width: width as u8 }),
            _ => Err(DomainFault::WrongWidth),
        }
    }

    // How many codes there are.
    fn codes(self) -> u16
        ensures value { result ≡ codes_of self.width }
        ensures bound { result ≤ 256 }
    {
        1 << self.width
    }

    // The least code whose signed reading is negative.
    #[tactic(auto, using(crate::proofs::Numbers::powers))]
    fn least(self) -> u16
        ensures value { result ≡ least_of self.width }
        ensures half { result + result ≡ codes_of self.width }
        ensures bound { result ≤ 128 }
    {
        1 << (self.width - 1)
    }

    fn is_code(self, code: u16) -> bool
        ensures { result ≡ is_code self.width code }
    {
        code < self.codes()
    }

    // The signed reading of a code.
    fn signed(self, code: u16) -> i32
        requires { code < codes_of self.width }
        ensures value { result ≡ signed self.width code }
        ensures bound { unsigned_abs result ≤ 128 }
        ensures zero { result ≡ pos 0 → code ≡ 0 }
    {
        if code < self.least() {
            i32::from(code)
        } else {
            i32::from(code) - i32::from(self.codes())
        }
    }

    // The code that a number has by its remainder.
    fn residue(self, number: i32) -> u16
        ensures { result ≡ residue self.width number }
    {
        number.rem_euclid(i32::from(self.codes())) as u16
    }

    fn in_unsigned(self, number: i32) -> bool
        ensures { result ≡ in_unsigned self.width number }
    {
        (0..i32::from(self.codes())).contains(&number)
    }

    fn in_signed(self, number: i32) -> bool
        ensures { result ≡ in_signed self.width number }
    {
        let least = i32::from(self.least());
        (-least..least).contains(&number)
    }

    // nuw and nsw by the exact results of the codes and of their signed readings.
    #[tactic(auto, unfolding(crate::specs::Words::overflow))]
    fn overflow(self, unsigned: i32, signed: i32) -> Marks
        ensures { result.bits ≡ overflow self.width unsigned signed }
    {
        let nuw = if self.in_unsigned(unsigned) {
            Marks::NONE
        } else {
            Marks::NUW
        };
        let nsw = if self.in_signed(signed) {
            Marks::NONE
        } else {
            Marks::NSW
        };
        nuw.union(nsw)
    }
}

impl Domain for Words {
    ghost model = { λ d. words d.width };

    ghost lawful = { λ d. words_lawful d.width d.low d.high };

    fn size(&self) -> u16 {
        self.codes()
    }

    #[tactic(auto, using(crate::proofs::Numbers::powers))]
    fn literal(&self, number: i16) -> Option<u16> {
        let number = i32::from(number);
        (self.in_signed(number) || self.in_unsigned(number)).then(|| self.residue(number))
    }

    fn settled(&self, code: u16) -> bool {
        self.is_code(code)
    }

    fn refines(&self, a: u16, b: u16) -> bool {
        a == b && self.is_code(a)
    }

    fn truth(&self, code: u16) -> Truth {
        if !self.is_code(code) {
            return Truth::Neither;
        }
        if code == 0 { Truth::No } else { Truth::Yes }
    }

    fn worst(&self) -> u16 {
        0
    }

    fn broken(&self, op: Operation, a: u16, b: u16) -> Marks {
        Operands::new(*self, a, b).map_or(Marks::NONE, |operands| operands.breaks(op))
    }

    fn compute(&self, op: Operation, _marks: Marks, a: u16, b: u16) -> Outcome {
        Operands::new(*self, a, b).ok_or(Trapped)?.result(op)
    }
}
