// A rule as code holds it.
ghost use Rattle.std.specs.Prelude.{◌≡◌, ◌≤◌};

use crate::Instruction;
use copy_vec::CopyVec;

// Up to 8 instructions. In both sides `Input(k)` is the k-th variable and `Record(j)` the side's own j-th instruction, from 1.
pub type Side = CopyVec<Instruction, 8>;

#[derive(Clone, Copy)]
pub struct Rule {
    variables: u8,
    source: Side,
    target: Side,
    ghost few_variables: { variables ≤ 4 },
}

impl Rule {
    pub fn new(variables: u8, source: Side, target: Side) -> Self
        requires { variables ≤ 4 }
        ensures variables { result.variables ≡ variables }
        ensures source { result.source ≡ source }
        ensures target { result.target ≡ target }
    {
        Rule {
            variables,
            source,
            target,
        }
    }

    // How many variables there are.
    pub fn variables(&self) -> u8
        ensures { result ≡ self.now.variables }
    {
        self.variables
    }

    pub fn source(&self) -> &Side
        ensures { result.now ≡ self.now.source }
    {
        &self.source
    }

    pub fn target(&self) -> &Side
        ensures { result.now ≡ self.now.target }
    {
        &self.target
    }
}
