// Sets of marks: promises that an operation's result is exact in some sense.
ghost use Rattle.std.specs.Prelude.{◌≡◌, ◌-◌, ◌%◌, ◌==◌, bit_and, bit_or, nat_lt};
ghost use Rattle.vocabulary.specs.Names.{mark_named};

// A set of marks is the sum of their numbers: nuw 1, nsw 2, exact 4, range 8.
#[derive(Clone, Copy, PartialEq, Eq, Debug)]
pub struct Marks {
    bits: u8,
}

impl Marks {
    pub const NONE: Marks = Marks { bits: 0 };

    pub const NUW: Marks = Marks { bits: 1 };

    pub const NSW: Marks = Marks { bits: 2 };

    pub const EXACT: Marks = Marks { bits: 4 };

    pub const RANGE: Marks = Marks { bits: 8 };

    // All four marks.
    pub fn all() -> Marks
        ensures { result ≡ record { bits = 15 } }
    {
        Marks { bits: 15 }
    }

    // The set that a number stands for, by its remainder by 16.
    pub fn from_bits(bits: u8) -> Marks
        ensures { result ≡ record { bits = bits % 16 } }
    {
        Marks { bits: bits % 16 }
    }

    // The number of the set.
    pub fn bits(self) -> u8
        ensures { result ≡ self.bits }
    {
        self.bits
    }

    // The marks of either set.
    pub fn union(self, other: Marks) -> Marks
        ensures { result ≡ record { bits = bit_or self.bits other.bits } }
    {
        Marks {
            bits: self.bits | other.bits,
        }
    }

    // The marks of both sets.
    pub fn common(self, other: Marks) -> Marks
        ensures { result ≡ record { bits = bit_and self.bits other.bits } }
    {
        Marks {
            bits: self.bits & other.bits,
        }
    }

    // The marks outside the other set.
    pub fn without(self, other: Marks) -> Marks
        ensures { result ≡ record { bits = self.bits - bit_and self.bits other.bits } }
    {
        Marks {
            bits: self.bits - (self.bits & other.bits),
        }
    }

    pub fn is_empty(self) -> bool
        ensures { result ≡ (self.bits == 0) }
    {
        self.bits == 0
    }

    // Whether the sets share a mark.
    pub fn meets(self, other: Marks) -> bool
        ensures { result ≡ nat_lt 0 (bit_and self.bits other.bits) }
    {
        self.bits & other.bits > 0
    }

    // The mark that a word names.
    pub fn named(word: &[u8]) -> Option<Marks>
        ensures { result ≡ mark_named word.now }
    {
        if word == b"nuw".as_slice() {
            return Some(Marks::NUW);
        }
        if word == b"nsw".as_slice() {
            return Some(Marks::NSW);
        }
        if word == b"exact".as_slice() {
            return Some(Marks::EXACT);
        }
        if word == b"range".as_slice() {
            return Some(Marks::RANGE);
        }
        None
    }
}
