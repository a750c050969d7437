// Which marks may be written on an operation, and which it bears unwritten.
ghost use Rattle.std.specs.Prelude.{◌≡◌};
ghost use Rattle.semantics.specs.Operations.{facts};
ghost use Rattle.text.specs.Instructions.{sum};
ghost use Rattle.reader.specs.Marks.{Members};

use vocabulary::marks::Marks;
use vocabulary::operation::Operation;

// nuw and nsw on sums, differences, products and shifts to the left; exact on quotients and shifts to the right.
pub fn permitted_marks(op: Operation) -> Marks
    ensures value { result.bits ≡ sum (facts op).permitted }
    ensures members { Members result.bits (facts op).permitted }
{
    match op {
        Operation::Add | Operation::Sub | Operation::Mul | Operation::Shl => {
            Marks::NUW.union(Marks::NSW)
        }
        Operation::Lshr | Operation::Ashr | Operation::Udiv | Operation::Sdiv => Marks::EXACT,
        _ => Marks::NONE,
    }
}

// Every shift bears range.
pub fn unwritten_marks(op: Operation) -> Marks
    ensures { result.bits ≡ (facts op).unwritten }
{
    match op {
        Operation::Shl | Operation::Lshr | Operation::Ashr => Marks::RANGE,
        _ => Marks::NONE,
    }
}
