// A walk along a chain of a table.
ghost use Rattle.std.specs.Iterator.{YieldsFirstBy, item_count};
ghost use Rattle.program.specs.Windows.{in_its_record, shown};

use crate::record::Record;
use chain::Links;
use semantics::Instruction;

// The instructions along a chain that are left, each with the number of its record. The table cannot change while a window is open.
#[derive(Clone, Copy)]
pub struct Window<'a> {
    pub(super) links: Links<'a, Record>,
}

impl<'a> Iterator for Window<'a> {
    type Item = (u8, Instruction);

    ghost next_gives = { YieldsFirstBy in_its_record shown };

    ghost remaining = { item_count shown };

    fn next(&mut self) -> Option<(u8, Instruction)> {
        let (at, record) = self.links.next()?;
        Some((at, record.instruction))
    }
}
