// Chains through a lent slice of records: each record names the next by its number, from 1, and zero ends a chain. A link is no
// `Option` and a number no type of its own, since a record holds one byte for it: that a number is a record's is said by `Within`.
//
// A chain is known by its first record, which the caller keeps. What a caller owes is that the links from there form a chain: `Ends`,
// `Passes` and `Misses` in specs/Chains.antt. What it gets is the chain's new list, that every chain without a changed record stays, and
// that nothing but links changed.
#![tactic(auto)]

ghost use Rattle.std.specs.Prelude.{◌≡◌, ℕ, ◌+◌, ◌-◌, ◌≤◌, List, [], ◌∷◌, ◌++◌, map, length, ◌≢◌};
ghost use Rattle.std.specs.List.{range_with_len};
ghost use Rattle.chain.specs.Chains.{Chained, Apart, OthersStay, Becomes, OnlyLinks, Ends, Passes, Misses, Within, link, relink};
ghost use Rattle.chain.specs.Places.{put_before, without, predecessor, Inserts};

mod links;
mod walk;

pub use links::Links;
pub use walk::iter;

// A record that holds the number of the next. Linking it leaves all else that it holds.
pub trait Linked {
    ghost successor: { Self → ℕ };

    ghost relinked: { Self → ℕ → Self };

    fn next(&self) -> u8
        ensures { result ≡ successor self.now };

    fn link(&mut self, to: u8)
        ensures { self.new ≡ relinked self.old to };

    ghost reads: { (r : Self) (n : ℕ) → successor (relinked r n) ≡ n };

    ghost again: { (r : Self) (m n : ℕ) → relinked (relinked r m) n ≡ relinked r n };

    ghost same: { (r : Self) → relinked r (successor r) ≡ r };
}

// The record that follows `at`, or 0. The caller owes a record of the slice.
fn next_of<R: Linked>(records: &[R], at: u8) -> u8
    requires { Within records.now at }
    ensures { result ≡ link (map R.Linked.successor records.now) at }
{
    records[at as usize - 1].next()
}

// Has record `at` name `to` as the next.
fn link_to<R: Linked>(records: &mut [R], at: u8, to: u8)
    requires { Within records.old at }
    ensures links { map R.Linked.successor records.new ≡ relink (map R.Linked.successor records.old) at to }
    ensures rest { OnlyLinks R.Linked.successor R.Linked.relinked records.old records.new }
{
    records[at as usize - 1].link(to);
}

// Puts record `at` in front of the chain from `first`, and answers the new first. The caller owes a record of the slice;
// what comes of a chain that had it already is not said.
pub fn push_front<R: Linked>(records: &mut [R], first: u8, at: u8) -> u8
    requires { Within records.old at }
    ensures value { result ≡ at }
    ensures chain { (ks : List ℕ) → Apart at ks → Chained (map R.Linked.successor records.old) first ks → Chained (map R.Linked.successor records.new) at (at ∷ ks) }
    ensures others { OthersStay (map R.Linked.successor records.old) (map R.Linked.successor records.new) (at ∷ []) }
    ensures rest { OnlyLinks R.Linked.successor R.Linked.relinked records.old records.new }
{
    link_to(records, at, first);
    at
}

// Takes the first record off the chain that begins with it, and answers the new first. The caller owes a record of the slice.
pub fn take_front<R: Linked>(records: &[R], first: u8) -> u8
    requires { Within records.now first }
    ensures value { result ≡ link (map R.Linked.successor records.now) first }
    ensures chain { (k : ℕ) (ks : List ℕ) → Chained (map R.Linked.successor records.now) first (k ∷ ks) → (first ≡ k) × Chained (map R.Linked.successor records.now) result ks }
{
    next_of(records, first)
}

// Chains the records from `low` to `high`, rising, and answers the first, or 0 where there is none. The caller owes records of the slice.
pub fn rise<R: Linked>(records: &mut [R], low: u8, high: u8) -> u8
    requires low { 1 ≤ low }
    requires order { low ≤ high + 1 }
    requires high { high ≤ length records.old }
    ensures chain { Chained (map R.Linked.successor records.new) result (range_with_len low (high + 1 - low)) }
    ensures others { OthersStay (map R.Linked.successor records.old) (map R.Linked.successor records.new) (range_with_len low (high + 1 - low)) }
    ensures rest { OnlyLinks R.Linked.successor R.Linked.relinked records.old records.new }
{
    let mut first = 0;
    for at in (low..=high).rev() {
        first = push_front(records, first, at);
    }
    first
}

// The record before `wanted` in the chain from `first`, or 0 where that is the first; the last record where the chain lacks it.
fn before<R: Linked>(records: &[R], first: u8, wanted: u8) -> u8
    requires { Ends (map R.Linked.successor records.now) first }
    ensures { (ks : List ℕ) → Chained (map R.Linked.successor records.now) first ks → result ≡ predecessor 0 ks wanted }
{
    iter(records, first)
        .map(|(at, _)| at)
        .take_while(|at| *at != wanted)
        .last()
        .unwrap_or(0)
}

// Puts record `at` behind record `place`.
fn insert_after<R: Linked>(records: &mut [R], place: u8, at: u8)
    requires behind { Within records.old place }
    requires within { Within records.old at }
    requires other { place ≢ at }
    ensures links { Inserts (map R.Linked.successor records.old) (map R.Linked.successor records.new) place at }
    ensures rest { OnlyLinks R.Linked.successor R.Linked.relinked records.old records.new }
{
    let next = next_of(records, place);
    link_to(records, at, next);
    link_to(records, place, at);
}

// Puts record `at` into the chain from `first` before record `place`, or last where the chain lacks that, and answers the new first.
// The caller owes a chain, and a record of the slice that is not in it.
pub fn insert_before<R: Linked>(records: &mut [R], first: u8, place: u8, at: u8) -> u8
    requires misses { Misses (map R.Linked.successor records.old) first at }
    requires within { Within records.old at }
    ensures links { Becomes (map R.Linked.successor records.old) first (map R.Linked.successor records.new) result (put_before place at) (at ∷ []) }
    ensures rest { OnlyLinks R.Linked.successor R.Linked.relinked records.old records.new }
{
    let last = before(records, first, place);
    if last == 0 {
        return push_front(records, first, at);
    }
    insert_after(records, last, at);
    first
}

// Puts record `at` last into the chain from `first`, and answers the new first. The caller owes a chain, and a record of the slice that
// is not in it.
pub fn append<R: Linked>(records: &mut [R], first: u8, at: u8) -> u8
    requires misses { Misses (map R.Linked.successor records.old) first at }
    requires within { Within records.old at }
    ensures links { Becomes (map R.Linked.successor records.old) first (map R.Linked.successor records.new) result (λ ks. ks ++ at ∷ []) (at ∷ []) }
    ensures rest { OnlyLinks R.Linked.successor R.Linked.relinked records.old records.new }
{
    insert_before(records, first, 0, at)
}

// Takes record `at` out of the chain from `first`, and answers the new first. The caller owes a chain that has the record.
pub fn remove<R: Linked>(records: &mut [R], first: u8, at: u8) -> u8
    requires { Passes (map R.Linked.successor records.old) first at }
    ensures links { Becomes (map R.Linked.successor records.old) first (map R.Linked.successor records.new) result (without at) [] }
    ensures rest { OnlyLinks R.Linked.successor R.Linked.relinked records.old records.new }
{
    let last = before(records, first, at);
    let next = next_of(records, at);
    if last == 0 {
        return next;
    }
    link_to(records, last, next);
    first
}
