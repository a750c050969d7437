// Value domains: what they answer, the laws that they keep, and what they refuse.
#![tactic(auto)]

ghost use Rattle.std.specs.Prelude.{◌≡◌};
ghost use Rattle.domain.specs.Model.{Model, Lawful};

use vocabulary::marks::Marks;
use vocabulary::operation::Operation;

pub mod fault;

// An operation gave no code: the program ends here.
#[derive(Clone, Copy, PartialEq, Eq, Debug)]
pub struct Trapped;

// What an operation gives at two codes.
pub type Outcome = Result<u16, Trapped>;

// What a code says as a condition.
#[derive(Clone, Copy, PartialEq, Debug)]
pub enum Truth {
    Yes,
    No,
    Neither,
}

// A value domain has the codes 0 to size - 1, and answers eight questions about them, always alike.
pub trait Domain {
    ghost model: { Self → Model };

    // How many codes there are.
    fn size(&self) -> u16
        ensures { result ≡ (model self.now).size };

    // The code that a written number from -128 to 255 means, if it means one.
    fn literal(&self, number: i16) -> Option<u16>
        ensures { result ≡ (model self.now).literal number };

    // Whether a code is one value for all who read it; freeze leaves such a code as it is.
    fn settled(&self, code: u16) -> bool
        ensures { result ≡ (model self.now).settled code };

    // Whether the first code may stand where the second stood.
    fn refines(&self, a: u16, b: u16) -> bool
        ensures { result ≡ (model self.now).refines a b };

    fn truth(&self, code: u16) -> Truth
        ensures { result ≡ (model self.now).truth code };

    // What select gives where the truth of its condition is neither.
    fn worst(&self) -> u16
        ensures { result ≡ (model self.now).worst };

    // The marks that an operation on two codes breaks, whether or not it bears them.
    fn broken(&self, op: Operation, a: u16, b: u16) -> Marks
        ensures { result.bits ≡ (model self.now).broken op a b };

    // What an operation that bears the marks gives at two codes.
    fn compute(&self, op: Operation, marks: Marks, a: u16, b: u16) -> Outcome
        ensures { result ≡ (model self.now).compute op marks.bits a b };

    ghost lawful: { (d : Self) → Lawful (model d) };
}
