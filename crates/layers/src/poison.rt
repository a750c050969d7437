// The poison layer: a broken mark gives poison, which stands for every code below.
ghost use Rattle.std.specs.Prelude.{◌≡◌, ℕ, Bool, if◌then◌else◌, Ok, nat_lt};
ghost use Rattle.domain.specs.Model.{trap};
ghost use Rattle.layers.specs.Layers.{poisoned, is_poison, is_trap, union_of, some_of, poison_broken, poison_traps, StandsForAll};
ghost use Rattle.layers.specs.PoisonLaws.{poisoned_lawful};

use crate::layer::violates;
use domain::{Domain, Outcome, Trapped, Truth};
use vocabulary::marks::Marks;
use vocabulary::operation::Operation;

// One more code, poison, equal to the size below; there is none over 65,535 codes.
#[derive(Clone, Copy, PartialEq, Debug)]
pub struct Poison<D> {
    below: D,
    marks: Marks,
}

impl<D: Domain> Poison<D> {
    pub fn over(below: D, marks: Marks) -> Poison<D>
        ensures value { result ≡ record { below = below; marks = marks } }
        ensures meaning { StandsForAll (D.Domain.model below) }
    {
        Poison { below, marks }
    }

    // Whether there is a number for one more code.
    fn has_room(&self) -> bool
        ensures { result ≡ nat_lt (D.Domain.model self.now.below).size 65535 }
    {
        self.below.size() < 65535
    }

    fn is_poison(&self, code: u16) -> bool
        ensures { result ≡ is_poison (D.Domain.model self.now.below) code }
    {
        code == self.below.size()
    }

    // Whether a test passes at some code that an operand stands for.
    fn some_code<F: Fn(u16) -> bool>(&self, code: u16, test: F) -> bool
        requires { (state : F) (x : _) → F.pre state x }
        ensures { (f : ℕ → Bool) → ((x : ℕ) (r : Bool) → F.post test x r → r ≡ f x) → result ≡ some_of (D.Domain.model self.now.below) code f }
    {
        if self.is_poison(code) {
            (0..self.below.size()).any(test)
        } else {
            test(code)
        }
    }

    // The union of sets over the codes that an operand stands for.
    fn union_over<F: Fn(u16) -> Marks>(&self, code: u16, marks_at: F) -> Marks
        requires { (state : F) (x : _) → F.pre state x }
        ensures { (f : ℕ → ℕ) → ((x : ℕ) (r : Marks) → F.post marks_at x r → r.bits ≡ f x) → result.bits ≡ union_of (D.Domain.model self.now.below) code f }
    {
        if self.is_poison(code) {
            let codes = 0..self.below.size();
            codes.map(marks_at).fold(Marks::NONE, Marks::union)
        } else {
            marks_at(code)
        }
    }

    // Broken marks over the codes that both operands stand for.
    fn broken_both(&self, op: Operation, a: u16, b: u16) -> Marks
        ensures { result.bits ≡ poison_broken (D.Domain.model self.now.below) op a b }
    {
        self.union_over(a, |x| self.union_over(b, |y| self.below.broken(op, x, y)))
    }

    // Whether computing below traps for some codes that the operands stand for.
    fn traps_both(&self, op: Operation, marks: Marks, a: u16, b: u16) -> bool
        ensures { result ≡ poison_traps (D.Domain.model self.now.below) op marks.bits a b }
    {
        self.some_code(a, |x| {
            self.some_code(b, |y| self.below.compute(op, marks, x, y).is_err())
        })
    }

    // An operation of which an operand is poison.
    fn compute_poison(&self, op: Operation, marks: Marks, a: u16, b: u16) -> Outcome
        ensures { result ≡ (if poison_traps (D.Domain.model self.now.below) op marks.bits a b then trap else Ok (D.Domain.model self.now.below).size) }
    {
        if self.traps_both(op, marks, a, b) {
            Err(Trapped)
        } else {
            Ok(self.below.size())
        }
    }
}

impl<D: Domain> Domain for Poison<D> {
    ghost model = { λ s. poisoned (D.Domain.model s.below) s.marks.bits };

    ghost lawful = { λ d. poisoned_lawful _ d.marks.bits (D.Domain.lawful d.below) };

    fn size(&self) -> u16 {
        self.below.size().saturating_add(1)
    }

    fn literal(&self, number: i16) -> Option<u16> {
        self.below.literal(number)
    }

    fn settled(&self, code: u16) -> bool {
        self.below.settled(code)
    }

    fn refines(&self, a: u16, b: u16) -> bool {
        if self.has_room() && self.is_poison(b) {
            return a <= b;
        }
        self.below.refines(a, b)
    }

    fn truth(&self, code: u16) -> Truth {
        self.below.truth(code)
    }

    fn worst(&self) -> u16 {
        if self.has_room() {
            self.below.size()
        } else {
            self.below.worst()
        }
    }

    fn broken(&self, op: Operation, a: u16, b: u16) -> Marks {
        if self.has_room() {
            self.broken_both(op, a, b)
        } else {
            self.below.broken(op, a, b)
        }
    }

    fn compute(&self, op: Operation, marks: Marks, a: u16, b: u16) -> Outcome {
        if !self.has_room() {
            return self.below.compute(op, marks, a, b);
        }
        let inner = marks.without(self.marks);
        if self.is_poison(a) || self.is_poison(b) {
            return self.compute_poison(op, inner, a, b);
        }
        let code = self.below.compute(op, inner, a, b)?;
        if violates(&self.below, op, marks.common(self.marks), a, b) {
            Ok(self.below.size())
        } else {
            Ok(code)
        }
    }
}
