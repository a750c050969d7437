// A walk along a chain.
ghost use Rattle.std.specs.Prelude.{◌≡◌, ⊤, true, map};
ghost use Rattle.std.specs.Iterator.{YieldsFirstBy, item_count};
ghost use Rattle.chain.specs.Chains.{Ends};
ghost use Rattle.chain.specs.Records.{records_at};
ghost use Rattle.chain.specs.Walks.{walk, chained};

use crate::Linked;
use std::alloc::AllocError;

// The records of a chain that are left, in their order, each with its number.
pub struct Links<'a, R: Linked> {
    pub(super) records: &'a [R],
    // the first of those that are left, or 0
    pub(super) at: u8,
    ghost chain: { chained (map R.Linked.successor records.now) at (walk (map R.Linked.successor records.now) at) ≡ true },
}

impl<'a, R: Linked> Iterator for Links<'a, R> {
    type Item = (u8, &'a R);

    ghost use Rattle.chain.specs.Links.{links_left};

    ghost next_gives = { YieldsFirstBy (λ item. (item.0, item.1.now)) links_left };

    ghost remaining = { item_count links_left };

    fn next(&mut self) -> Option<(u8, &'a R)> {
        let at = self.at;
        if at == 0 {
            return None;
        }
        let record = &self.records[at as usize - 1];
        self.at = record.next();
        Some((at, record))
    }
}

impl<'a, R: Linked> Clone for Links<'a, R> {
    ghost is_clone = { λ it copy. copy ≡ it };

    ghost is_infallible = { λ _. ⊤ };

    fn clone(&self) -> Result<Self, AllocError> {
        Ok(*self)
    }
}

impl<'a, R: Linked> Copy for Links<'a, R> {}
