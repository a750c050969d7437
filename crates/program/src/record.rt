// A record of the table: an instruction, and the number of the next record.
ghost use Rattle.std.specs.Prelude.{◌≡◌, ◌-◌, ◌≤◌, length, take, slice_set};
ghost use Rattle.chain.specs.Chains.{Within};
ghost use Rattle.program.specs.View.{instructions as contents, links};
ghost use Rattle.std.proofs.Common.{rules};

use chain::Linked;
use semantics::Instruction;

#[derive(Clone, Copy, Default)]
pub struct Record {
    pub instruction: Instruction,
    pub next: u8,
}

impl Linked for Record {
    ghost successor = { λ r. r.next };

    ghost relinked = { λ r n. record { instruction = r.instruction; next = n } };

    ghost reads = { Prim.search rules };

    ghost again = { Prim.search rules };

    ghost same = { Prim.search rules };

    fn next(&self) -> u8 {
        self.next
    }

    fn link(&mut self, to: u8) {
        self.next = to;
    }
}

// Puts an instruction into record `at`. The caller owes a record of the slice.
pub fn put(records: &mut [Record], at: u8, instruction: Instruction)
    requires { Within records.old at }
    ensures what { contents records.new ≡ slice_set (contents records.old) (at - 1) instruction }
    ensures rest { links records.new ≡ links records.old }
{
    records[at as usize - 1].instruction = instruction;
}

// Puts the instructions into the records from the first on. The caller owes that there are enough.
pub fn fill(records: &mut [Record], instructions: &[Instruction])
    requires { length instructions.now ≤ length records.old }
    ensures { take (length instructions.now) (contents records.new) ≡ instructions.now }
{
    // by their places: what `iter_mut` lends is lost to the proof once `zip` passes it on
    for (i, instruction) in instructions.iter().enumerate() {
        records[i].instruction = *instruction;
    }
}
