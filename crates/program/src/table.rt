// The table of records.
ghost use Rattle.std.specs.Prelude.{◌≡◌, ◌+◌, true, map, length};
ghost use Rattle.chain.specs.Walks.{walk, disjoint};

use crate::record::Record;
use crate::table::window::Window;
use semantics::Instruction;

mod evaluating;
mod loading;
mod rewriting;
pub mod window;

// The instructions of the program are chained from `first` and the free records from `free`: two chains that share no record and
// together have all. Records name one another by their numbers, at which rules are applied and which are shown; nothing is allocated.
#[derive(Drop)]
pub struct Table {
    records: [Record; 64],
    first: u8,
    free: u8,
    inputs: u8,
    result: u8,
    ghost long: { length records ≡ 64 },
    ghost chains: { disjoint (map (λ r. r.next) records) first free ≡ true },
    ghost all: { length (walk (map (λ r. r.next) records) first) + length (walk (map (λ r. r.next) records) free) ≡ 64 },
}

// What a table shows of itself, in chain order.
impl Table {
    ghost use Rattle.semantics.specs.Fitting.{look};
    ghost use Rattle.semantics.specs.Programs.{records as records_of};
    ghost use Rattle.program.specs.View.{view};
    ghost use Rattle.program.specs.Windows.{shown};

    // How many inputs the program has.
    pub fn inputs(&self) -> u8
        ensures { result ≡ (view self.now).program.inputs }
    {
        self.inputs
    }

    // The record of the program's result.
    pub fn result(&self) -> u8
        ensures { result ≡ (view self.now).program.result }
    {
        self.result
    }

    // How many instructions the program has.
    pub fn count(&self) -> u8
        ensures { result ≡ length (view self.now).program.body }
    {
        self.window().count() as u8
    }

    // The program's instruction in record `wanted`: none where the record is free, or no record at all.
    pub fn look(&self, wanted: u8) -> Option<Instruction>
        ensures { result ≡ look (view self.now).program.body wanted }
    {
        self.window()
            .find(|(at, _)| *at == wanted)
            .map(|(_, instruction)| instruction)
    }

    // The program's instructions in order.
    pub fn window(&self) -> Window<'_>
        ensures { shown result ≡ (view self.now).program.body }
    {
        Window {
            links: chain::iter(&self.records, self.first),
        }
    }

    // The free records, the first to be taken first; what stands in them is no part of the program.
    pub fn free_window(&self) -> Window<'_>
        ensures { records_of (shown result) ≡ (view self.now).free }
    {
        Window {
            links: chain::iter(&self.records, self.free),
        }
    }
}
