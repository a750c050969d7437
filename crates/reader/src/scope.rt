// The names that an instruction line may read.
ghost use Rattle.std.specs.Prelude.{◌≡◌, []};
ghost use Rattle.text.specs.Instructions.{known, named, place};
ghost use Rattle.reader.specs.Scopes.{known_names};

use crate::names::Names;
use semantics::Operand;

// Variables of a rule or inputs of a program, and the instructions before the line.
#[derive(Clone, Copy)]
pub struct Scope<'a> {
    pub variables: Names<'a>,
    pub instructions: Names<'a>,
}

impl<'a> Scope<'a> {
    pub fn new() -> Scope<'a>
        ensures { known_names result ≡ record { variables = []; instructions = [] } }
    {
        Scope {
            variables: Names::new(),
            instructions: Names::new(),
        }
    }

    // A known name is readable, and so taken.
    pub fn knows(&self, name: &[u8]) -> bool
        ensures { result ≡ known (known_names self.now) name.now }
    {
        self.instructions.has(name) || self.variables.has(name)
    }

    // The operand that a name means: an instruction, counted from 1, or a variable.
    pub fn named(&self, name: &[u8]) -> Operand
        ensures { result ≡ named (place name.now (known_names self.now).instructions) (place name.now (known_names self.now).variables) }
    {
        if let Some(j) = self.instructions.place(name) {
            return Operand::Record(j as u8 + 1);
        }
        match self.variables.place(name) {
            Some(v) => Operand::Input(v as u8),
            None => Operand::default(),
        }
    }
}
