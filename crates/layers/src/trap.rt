// The trap layer: a broken mark traps.
ghost use Rattle.std.specs.Prelude.{◌≡◌};
ghost use Rattle.layers.specs.Layers.{trapping};
ghost use Rattle.layers.specs.TrapLaws.{trapping_lawful};

use crate::layer::violates;
use domain::{Domain, Outcome, Trapped, Truth};
use vocabulary::marks::Marks;
use vocabulary::operation::Operation;

// Answers like the domain below, but computing traps where a mark of the set is borne and broken.
#[derive(Clone, Copy, PartialEq, Debug)]
pub struct Trap<D> {
    below: D,
    marks: Marks,
}

impl<D: Domain> Trap<D> {
    pub fn over(below: D, marks: Marks) -> Trap<D>
        ensures { result ≡ record { below = below; marks = marks } }
    {
        Trap { below, marks }
    }
}

impl<D: Domain> Domain for Trap<D> {
    ghost model = { λ s. trapping (D.Domain.model s.below) s.marks.bits };

    ghost lawful = { λ d. trapping_lawful _ d.marks.bits (D.Domain.lawful d.below) };

    fn size(&self) -> u16 {
        self.below.size()
    }

    fn literal(&self, number: i16) -> Option<u16> {
        self.below.literal(number)
    }

    fn settled(&self, code: u16) -> bool {
        self.below.settled(code)
    }

    fn refines(&self, a: u16, b: u16) -> bool {
        self.below.refines(a, b)
    }

    fn truth(&self, code: u16) -> Truth {
        self.below.truth(code)
    }

    fn worst(&self) -> u16 {
        self.below.worst()
    }

    fn broken(&self, op: Operation, a: u16, b: u16) -> Marks {
        self.below.broken(op, a, b)
    }

    fn compute(&self, op: Operation, marks: Marks, a: u16, b: u16) -> Outcome {
        if violates(&self.below, op, marks.common(self.marks), a, b) {
            return Err(Trapped);
        }
        self.below.compute(op, marks.without(self.marks), a, b)
    }
}
