// Piles of layers over words that are chosen at run time, as one domain type.
#![tactic(auto)]

ghost use Rattle.std.specs.Prelude.{◌≡◌, ◌≤◌, MatchResult};
ghost use Rattle.domain.specs.declared.fault.DomainFault.TheVariants.{WrongWidth};
ghost use Rattle.pile.specs.Examples.{Examples};
ghost use Rattle.pile.specs.Piles.{layered, over, pile_model, blueprint_model};
ghost use Rattle.pile.specs.Layers.{layered_lawful};

use domain::fault::DomainFault;
use domain::{Domain, Outcome, Truth};
use layers::poison::Poison;
use layers::trap::Trap;
use vocabulary::marks::Marks;
use vocabulary::operation::Operation;
use words::Words;

// What may stand on a domain.
#[derive(Clone, Copy, PartialEq, Debug)]
pub enum Layer {
    Trap(Marks),
    Poison(Marks),
}

// A domain with a layer that is chosen at run time, or with none.
#[derive(Clone, Copy, PartialEq, Debug)]
pub enum Layered<D> {
    Bare(D),
    Trapping(Trap<D>),
    Poisoning(Poison<D>),
}

// Words under up to three layers.
pub type Pile = Layered<Layered<Layered<Words>>>;

impl<D: Domain> Layered<D> {
    pub fn over(below: D, layer: Option<Layer>) -> Layered<D>
        ensures { layered D.Domain.model result ≡ over (D.Domain.model below) layer }
    {
        match layer {
            None => Layered::Bare(below),
            Some(Layer::Trap(marks)) => Layered::Trapping(Trap::over(below, marks)),
            Some(Layer::Poison(marks)) => Layered::Poisoning(Poison::over(below, marks)),
        }
    }
}

// Words of a width under up to three layers, from the bottom up.
#[derive(Clone, Copy, PartialEq, Debug)]
pub struct Blueprint {
    pub width: u16,
    pub layers: [Option<Layer>; 3],
}

impl Blueprint {
    // The domain that it describes; another width than 1 to 8 is refused.
    pub fn build(self) -> Result<Pile, DomainFault>
        ensures { MatchResult result (λ pile. (pile_model pile ≡ blueprint_model self) × (1 ≤ self.width) × (self.width ≤ 8)) (λ fault. (fault ≡ WrongWidth) × (1 ≤ self.width → self.width ≤ 8 → ⊥)) }
    {
        let [bottom, middle, top] = self.layers;
        let words = Words::new(self.width)?;
        Ok(Layered::over(Layered::over(Layered::over(words, bottom), middle), top))
    }
}

// Each method matches: a `dyn Domain` that is handed out would hide what it promises.
impl<D: Domain> Domain for Layered<D> {
    ghost model = { layered D.Domain.model };

    ghost lawful = { λ d. layered_lawful D.Domain.model D.Domain.lawful d };

    fn size(&self) -> u16 {
        match self {
            Layered::Bare(d) => d.size(),
            Layered::Trapping(d) => d.size(),
            Layered::Poisoning(d) => d.size(),
        }
    }

    fn literal(&self, number: i16) -> Option<u16> {
        match self {
            Layered::Bare(d) => d.literal(number),
            Layered::Trapping(d) => d.literal(number),
            Layered::Poisoning(d) => d.literal(number),
        }
    }

    fn settled(&self, code: u16) -> bool {
        match self {
            Layered::Bare(d) => d.settled(code),
            Layered::Trapping(d) => d.settled(code),
            Layered::Poisoning(d) => d.settled(code),
        }
    }

    fn refines(&self, a: u16, b: u16) -> bool {
        match self {
            Layered::Bare(d) => d.refines(a, b),
            Layered::Trapping(d) => d.refines(a, b),
            Layered::Poisoning(d) => d.refines(a, b),
        }
    }

    fn truth(&self, code: u16) -> Truth {
        match self {
            Layered::Bare(d) => d.truth(code),
            Layered::Trapping(d) => d.truth(code),
            Layered::Poisoning(d) => d.truth(code),
        }
    }

    fn worst(&self) -> u16 {
        match self {
            Layered::Bare(d) => d.worst(),
            Layered::Trapping(d) => d.worst(),
            Layered::Poisoning(d) => d.worst(),
        }
    }

    fn broken(&self, op: Operation, a: u16, b: u16) -> Marks {
        match self {
            Layered::Bare(d) => d.broken(op, a, b),
            Layered::Trapping(d) => d.broken(op, a, b),
            Layered::Poisoning(d) => d.broken(op, a, b),
        }
    }

    fn compute(&self, op: Operation, marks: Marks, a: u16, b: u16) -> Outcome {
        match self {
            Layered::Bare(d) => d.compute(op, marks, a, b),
            Layered::Trapping(d) => d.compute(op, marks, a, b),
            Layered::Poisoning(d) => d.compute(op, marks, a, b),
        }
    }
}

// The worked examples at width 4: words, and the house pile over them.
pub fn examples_hold()
    ensures { Examples }
{}
