// What the trap layer and the poison layer share.
ghost use Rattle.std.specs.Prelude.{◌≡◌, bit_and, nat_lt};

use domain::Domain;
use vocabulary::marks::Marks;
use vocabulary::operation::Operation;

// Whether an operation breaks one of the marks in the domain below, which is not asked where there is none.
pub(crate) fn violates<D: Domain>(below: &D, op: Operation, marks: Marks, a: u16, b: u16) -> bool
    ensures { result ≡ nat_lt 0 (bit_and ((D.Domain.model below.now).broken op a b) marks.bits) }
{
    !marks.is_empty() && below.broken(op, a, b).meets(marks)
}
