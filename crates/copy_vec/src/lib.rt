// Vectors of a fixed capacity that are copied as a whole, like the arrays that they hold.
#![tactic(auto)]

ghost use Rattle.std.specs.Prelude.{◌≡◌, ◌+◌, ◌<◌, ◌≤◌, ◌↔◌, ⊤, [], ◌∷◌, ◌++◌, ◌==◌, length, IsOk, IfErr, OnOk, OnErr};

use std::alloc::AllocError;
use std::ops::DerefSlice;

// Up to `N` elements, which stand at the front of the slots; what the slots behind them hold is no part of the vector. An `ArrayVec` is
// not `Copy`, and rules, names and programs read from texts are.
pub struct CopyVec<T, const N: usize> {
    slots: [T; N],
    count: usize,
    ghost long: { length slots ≡ N },
    ghost few: { count ≤ N },
}

impl<T: Copy, const N: usize> Copy for CopyVec<T, N> {}

impl<T: Copy, const N: usize> Clone for CopyVec<T, N> {
    ghost is_clone = { λ v copy. copy ≡ v };

    ghost is_infallible = { λ _. ⊤ };

    fn clone(&self) -> Result<Self, AllocError> {
        Ok(*self)
    }
}

impl<T: Copy + Default, const N: usize> CopyVec<T, N> {
    ghost use Rattle.copy_vec.specs.Items.{items};

    // A vector with no element.
    pub fn new() -> Self
        ensures { items result ≡ [] }
    {
        CopyVec {
            slots: [T::default(); N],
            count: 0,
        }
    }
}

impl<T, const N: usize> CopyVec<T, N> {
    ghost use Rattle.copy_vec.specs.Items.{items};

    pub fn len(&self) -> usize
        ensures value { result ≡ length (items self.now) }
        ensures few { result ≤ N }
    {
        self.as_slice().len()
    }

    pub fn is_empty(&self) -> bool
        ensures { result ≡ (length (items self.now) == 0) }
    {
        self.len() == 0
    }

    // Whether there is no room for one element more.
    pub fn is_full(&self) -> bool
        ensures value { result ≡ (length (items self.now) == N) }
        ensures few { length (items self.now) ≤ N }
    {
        self.count == N
    }

    // The elements in their order.
    pub fn as_slice(&self) -> &[T]
        ensures value { result.now ≡ items self.now }
        ensures few { length result.now ≤ N }
    {
        let slots = &self.slots[..];
        &slots[..self.count]
    }
}

impl<T: Copy, const N: usize> CopyVec<T, N> {
    ghost use Rattle.copy_vec.specs.Items.{items};

    // One element more, at the end. The caller owes that there is room.
    pub fn push(&mut self, element: T)
        requires { length (items self.old) < N }
        ensures { items self.new ≡ items self.old ++ element ∷ [] }
    {
        self.slots[self.count] = element;
        self.count += 1;
    }

    // One element more, at the end; where there is no room it is handed back, and the vector stays as it was.
    pub fn try_push(&mut self, element: T) -> Result<(), T>
        ensures variant { IsOk result ↔ (length (items self.old) < N) }
        ensures ok { OnOk result (items self.new ≡ items self.old ++ element ∷ []) }
        ensures err { OnErr result (self.new ≡ self.old) }
        ensures full { OnErr result (length (items self.old) ≡ N) }
        ensures returned { IfErr result (λ back. back ≡ element) }
    {
        if self.is_full() {
            return Err(element);
        }
        self.push(element);
        Ok(())
    }
}

impl<T, const N: usize> DerefSlice for CopyVec<T, N> {
    ghost use Rattle.copy_vec.specs.Items.{items};

    type Elem = T;

    ghost deref_gives = { λ v xs. (xs ≡ items v) × (length xs ≤ N) };

    fn deref(&self) -> &[T] {
        self.as_slice()
    }
}
