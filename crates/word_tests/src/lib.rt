// Words of every width, at every operation and pair of codes, held to a second way of computing:
// steps around the circle of codes, repeated subtraction, sign bits and bit columns in the place of exact integers.
#![tactic(auto)]

use domain::{Domain, Outcome, Trapped};
use vocabulary::marks::Marks;
use vocabulary::operation::Operation;
use words::Words;

const TRAP: u32 = 1000;

// Words of a width, by the bits that stand at the top and at all places.
#[derive(Clone, Copy)]
struct Circle {
    width: u32,
    top: u32,
    mask: u32,
}

impl Circle {
    fn new(width: u32) -> Circle {
        let mut size: u32 = 1;
        for _ in 0..width {
            size = size.wrapping_mul(2);
        }
        Circle {
            width,
            top: size / 2,
            mask: size.wrapping_sub(1),
        }
    }

    fn negative(self, a: u32) -> bool {
        a & self.top != 0
    }

    fn minus(self, a: u32) -> u32 {
        (a ^ self.mask).wrapping_add(1) & self.mask
    }

    fn magnitude(self, a: u32) -> u32 {
        if self.negative(a) { self.minus(a) } else { a }
    }

    // One step for each of b.
    fn add(self, a: u32, b: u32) -> u32 {
        let mut r = a;
        for _ in 0..b {
            r = r.wrapping_add(1) & self.mask;
        }
        r
    }

    fn mul(self, a: u32, b: u32) -> u32 {
        let mut r = 0;
        for _ in 0..b {
            r = self.add(r, a);
        }
        r
    }

    fn shl(self, a: u32, b: u32) -> u32 {
        let mut r = a;
        for _ in 0..b {
            r = self.add(r, r);
        }
        r
    }

    // Halving with the top bit kept, or with none coming in.
    fn shr(self, a: u32, b: u32, top: u32) -> u32 {
        let mut r = a;
        for _ in 0..b {
            r = (r / 2) | top;
        }
        r
    }

    // Quotient and rest by taking the divisor away while it goes.
    fn divided(self, a: u32, b: u32) -> (u32, u32) {
        let mut quotient: u32 = 0;
        let mut rest = a;
        for _ in 0..a {
            if b <= rest {
                rest -= b;
                quotient = quotient.wrapping_add(1);
            }
        }
        (quotient, rest)
    }

    fn signed(self, value: u32, negative: bool) -> u32 {
        if negative { self.minus(value) } else { value }
    }

    fn quotient(self, a: u32, b: u32) -> u32 {
        let (quotient, _) = self.divided(self.magnitude(a), self.magnitude(b));
        self.signed(quotient, self.negative(a) != self.negative(b))
    }

    fn remainder(self, a: u32, b: u32) -> u32 {
        let (_, rest) = self.divided(self.magnitude(a), self.magnitude(b));
        self.signed(rest, self.negative(a))
    }

    // The codes that trap: a zero divisor, and least by -1.
    fn traps(self, op: Operation, a: u32, b: u32) -> bool {
        match op {
            Operation::Udiv | Operation::Urem | Operation::Srem => b == 0,
            Operation::Sdiv => b == 0 || a == self.top && b == self.mask,
            _ => false,
        }
    }

    fn shifts(self, op: Operation, a: u32, b: u32) -> u32 {
        let sign = if self.negative(a) { self.top } else { 0 };
        match op {
            Operation::Shl => self.shl(a, b),
            Operation::Lshr => self.shr(a, b, 0),
            _ => self.shr(a, b, sign),
        }
    }

    fn bits(self, op: Operation, a: u32, b: u32) -> u32 {
        let mut r: u32 = 0;
        let mut column: u32 = 1;
        for _ in 0..self.width {
            let both = (a & column != 0, b & column != 0);
            let set = match op {
                Operation::And => both.0 && both.1,
                Operation::Or => both.0 || both.1,
                _ => both.0 != both.1,
            };
            if set {
                r = r.wrapping_add(column);
            }
            column = column.wrapping_mul(2);
        }
        r
    }

    fn compares(self, op: Operation, a: u32, b: u32) -> bool {
        let borrow = a.wrapping_sub(b) > 1000;
        let flipped = (a ^ self.top).wrapping_sub(b ^ self.top) > 1000;
        match op {
            Operation::Eq => a ^ b == 0,
            Operation::Ne => a ^ b != 0,
            Operation::Ult => borrow,
            Operation::Ule => borrow || a == b,
            Operation::Slt => flipped,
            _ => flipped || a == b,
        }
    }

    fn compute(self, op: Operation, a: u32, b: u32) -> u32 {
        if self.traps(op, a, b) {
            return TRAP;
        }
        match op {
            Operation::Add => self.add(a, b),
            Operation::Sub => self.add(a, self.minus(b)),
            Operation::Mul => self.mul(a, b),
            Operation::Shl | Operation::Lshr | Operation::Ashr => self.shifts(op, a, b),
            Operation::Udiv => self.divided(a, b).0,
            Operation::Urem => self.divided(a, b).1,
            Operation::Sdiv => self.quotient(a, b),
            Operation::Srem => self.remainder(a, b),
            Operation::And | Operation::Or | Operation::Xor => self.bits(op, a, b),
            Operation::Copy | Operation::Freeze | Operation::Select => TRAP,
            _ => self.compares(op, a, b) as u32,
        }
    }

    // Whether a product of magnitudes is no code of its sign.
    fn product_leaves(self, a: u32, b: u32) -> bool {
        let product = self.magnitude(a).wrapping_mul(self.magnitude(b));
        if self.negative(a) != self.negative(b) {
            product > self.top
        } else {
            product >= self.top
        }
    }

    fn breaks_nuw(self, op: Operation, a: u32, b: u32) -> bool {
        match op {
            Operation::Add => self.add(a, b) < a,
            Operation::Sub => b > a,
            _ => a.wrapping_mul(b) & self.mask != a.wrapping_mul(b),
        }
    }

    fn breaks_nsw(self, op: Operation, a: u32, b: u32) -> bool {
        let result = self.compute(op, a, b);
        match op {
            Operation::Add => {
                self.negative(a) == self.negative(b) && self.negative(a) != self.negative(result)
            }
            Operation::Sub => {
                self.negative(a) != self.negative(b) && self.negative(a) != self.negative(result)
            }
            _ => self.product_leaves(a, b),
        }
    }

    // Twice as often as b says: what a positive power of two does to a code and to its magnitude.
    fn doubled(self, a: u32, b: u32) -> u32 {
        let mut r = a;
        for _ in 0..b {
            r = r.wrapping_mul(2);
        }
        r
    }

    fn shl_breaks(self, a: u32, b: u32) -> u32 {
        let magnitude = self.doubled(self.magnitude(a), b);
        let leaves = if self.negative(a) {
            magnitude > self.top
        } else {
            magnitude >= self.top
        };
        let nuw = self.doubled(a, b) > self.mask;
        (nuw as u32) | (leaves as u32) << 1
    }

    fn broken(self, op: Operation, a: u32, b: u32) -> u32 {
        match op {
            Operation::Add | Operation::Sub | Operation::Mul => {
                (self.breaks_nuw(op, a, b) as u32) | (self.breaks_nsw(op, a, b) as u32) << 1
            }
            Operation::Shl | Operation::Lshr | Operation::Ashr => {
                if b >= self.width {
                    return 8;
                }
                match op {
                    Operation::Shl => self.shl_breaks(a, b),
                    _ => (self.shl(self.shr(a, b, 0), b) != a) as u32 * 4,
                }
            }
            Operation::Udiv | Operation::Sdiv => {
                if self.traps(op, a, b) {
                    return 0;
                }
                (self.mul(self.compute(op, a, b), b) != a) as u32 * 4
            }
            _ => 0,
        }
    }
}

#[cfg(test)]
mod tests {
    use super::*;
    use std::test::Fail;

    fn number(outcome: Outcome) -> u32 {
        match outcome {
            Ok(code) => code as u32,
            Err(Trapped) => TRAP,
        }
    }

    fn agrees(words: &Words, circle: Circle, op: Operation, a: u16, b: u16) -> bool {
        let outcome = words.compute(op, Marks::all(), a, b);
        let broken = words.broken(op, a, b);
        number(outcome) == circle.compute(op, a as u32, b as u32)
            && broken.bits() as u32 == circle.broken(op, a as u32, b as u32)
    }

    fn differences(words: &Words, circle: Circle, op: Operation) -> u32 {
        let mut count: u32 = 0;
        for a in 0..words.size() {
            for b in 0..words.size() {
                if !agrees(words, circle, op, a, b) {
                    count = count.wrapping_add(1);
                }
            }
        }
        count
    }

    #[test]
    fn every_width_agrees(rt: HostRuntime) -> Result<(), Fail> {
        for width in 1..9u16 {
            let words = Words::new(width)?;
            for op in Operation::ALL {
                assert_eq!(rt; differences(&words, Circle::new(width as u32), op), 0);
            }
        }
        Ok(())
    }

    #[test]
    fn other_widths_are_refused(rt: HostRuntime) {
        assert!(rt; Words::new(0).is_err());
        assert!(rt; Words::new(9).is_err());
        assert!(rt; Words::new(260).is_err());
    }
}
