// The steps of rewriting.
ghost use Rattle.std.specs.Prelude.{◌≡◌, ◌≤◌, T, length};
ghost use Rattle.semantics.specs.Programs.{has, head, records as records_of};
ghost use Rattle.program.specs.Steps.{released, entered, replaced};
ghost use Rattle.program.specs.View.{view};

use crate::record::put;
use crate::table::Table;
use semantics::Instruction;

impl Table {
    // Frees record `at`: it is the first to be taken again. The caller owes a record of the program.
    pub fn release(&mut self, at: u8)
        requires { T (has at (records_of (view self.old).program.body)) }
        ensures { view self.new ≡ released at (view self.old) }
    {
        let first = self.first;
        let free = self.free;
        self.first = chain::remove(&mut self.records, first, at);
        self.free = chain::push_front(&mut self.records, free, at);
    }

    // Puts an instruction into the first free record, before record `place` of the program, or last where that is none of it, and
    // answers the record. The caller owes that a record is free.
    pub fn enter(&mut self, place: u8, instruction: Instruction) -> u8
        requires { 1 ≤ length (view self.old).free }
        ensures value { result ≡ head (view self.old).free }
        ensures after { view self.new ≡ entered place instruction (view self.old) }
    {
        let at = self.free;
        let first = self.first;
        self.free = chain::take_front(&self.records, at);
        self.first = chain::insert_before(&mut self.records, first, place, at);
        put(&mut self.records, at, instruction);
        at
    }

    // Puts another instruction into record `at`. The caller owes a record of the table.
    pub fn replace(&mut self, at: u8, instruction: Instruction)
        requires low { 1 ≤ at }
        requires high { at ≤ 64 }
        ensures { view self.new ≡ replaced at instruction (view self.old) }
    {
        put(&mut self.records, at, instruction);
    }
}
