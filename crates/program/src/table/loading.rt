// A table with no program, and a program loaded.
ghost use Rattle.std.specs.Prelude.{◌≡◌, ◌≤◌, [], length};
ghost use Rattle.semantics.specs.Rules.{numbered};
ghost use Rattle.semantics.specs.Changes.{as_loaded};
ghost use Rattle.program.specs.View.{view};

use crate::record::{Record, fill};
use crate::table::Table;
use semantics::Instruction;

impl Table {
    // A table with no program: all records are free, rising.
    pub fn new() -> Table
        ensures { view result ≡ as_loaded (record { inputs = 0; body = []; result = 0 }) }
    {
        let mut records = [Record::default(); 64];
        let free = chain::rise(&mut records, 1, 64);
        Table {
            records,
            first: 0,
            free,
            inputs: 0,
            result: 0,
        }
    }

    // Loads a program in place of the former one: its instructions stand in the records from 1 on, and the rest are free, rising.
    // The caller owes that there are records for all instructions.
    pub fn load(&mut self, instructions: &[Instruction], inputs: u8, returned: u8)
        requires { length instructions.now ≤ 64 }
        ensures { view self.new ≡ as_loaded (record { inputs = inputs; body = numbered 1 instructions.now; result = returned }) }
    {
        let count = instructions.len() as u8;
        fill(&mut self.records, instructions);
        self.first = chain::rise(&mut self.records, 1, count);
        self.free = chain::rise(&mut self.records, count + 1, 64);
        self.inputs = inputs;
        self.result = returned;
    }
}
