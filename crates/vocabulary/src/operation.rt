// The 22 operations and their names.
ghost use Rattle.std.specs.Prelude.{◌≡◌, Some};
ghost use Rattle.vocabulary.specs.Names.{name_of, operand_count, operation_named, NamesOperation};

use std::fmt;

// The 19 operations on two codes that a domain computes, then copy, freeze and select.
#[derive(Clone, Copy, PartialEq, Eq, Debug)]
pub enum Operation {
    Add,
    Sub,
    Mul,
    Shl,
    Lshr,
    Ashr,
    Udiv,
    Urem,
    Sdiv,
    Srem,
    And,
    Or,
    Xor,
    Eq,
    Ne,
    Ult,
    Ule,
    Slt,
    Sle,
    Copy,
    Freeze,
    Select,
}

impl Operation {
    // All operations, in their order.
    pub const ALL: [Operation; 22] = [
        Operation::Add,
        Operation::Sub,
        Operation::Mul,
        Operation::Shl,
        Operation::Lshr,
        Operation::Ashr,
        Operation::Udiv,
        Operation::Urem,
        Operation::Sdiv,
        Operation::Srem,
        Operation::And,
        Operation::Or,
        Operation::Xor,
        Operation::Eq,
        Operation::Ne,
        Operation::Ult,
        Operation::Ule,
        Operation::Slt,
        Operation::Sle,
        Operation::Copy,
        Operation::Freeze,
        Operation::Select,
    ];

    // The word that texts write for it.
    pub fn name(self) -> &'static str
        ensures { result.now ≡ name_of self }
    {
        match self {
            Operation::Add => "add",
            Operation::Sub => "sub",
            Operation::Mul => "mul",
            Operation::Shl => "shl",
            Operation::Lshr => "lshr",
            Operation::Ashr => "ashr",
            Operation::Udiv => "udiv",
            Operation::Urem => "urem",
            Operation::Sdiv => "sdiv",
            Operation::Srem => "srem",
            Operation::And => "and",
            Operation::Or => "or",
            Operation::Xor => "xor",
            Operation::Eq => "eq",
            Operation::Ne => "ne",
            Operation::Ult => "ult",
            Operation::Ule => "ule",
            Operation::Slt => "slt",
            Operation::Sle => "sle",
            Operation::Copy => "copy",
            Operation::Freeze => "freeze",
            Operation::Select => "select",
        }
    }

    // How many operands it takes: a domain computes the operations that take two.
    pub fn operand_count(self) -> u8
        ensures { result ≡ operand_count self }
    {
        match self {
            Operation::Copy | Operation::Freeze => 1,
            Operation::Select => 3,
            _ => 2,
        }
    }

    // The operation that a word names.
    pub fn named(word: &[u8]) -> Option<Operation>
        ensures value { result ≡ operation_named word.now }
        ensures meaning { NamesOperation word.now result }
    {
        Operation::ALL
            .iter()
            .find(|op| word == op.name().as_bytes())
            .copied()
    }
}

// As texts write it.
impl fmt::Display for Operation {
    ghost output = { λ op. Some (name_of op) };

    fn fmt<W: fmt::Write>(&self, f: &mut fmt::Formatter<W>) -> fmt::Result {
        f.write_str(self.name())
    }
}
