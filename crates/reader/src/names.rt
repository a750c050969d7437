// Names met in a text, which stay parts of it.
ghost use Rattle.std.specs.Prelude.{◌≡◌, ◌<◌, ◌≤◌, [], ◌∷◌, ◌++◌, length, IfSome};
ghost use Rattle.text.specs.Instructions.{place, among};
ghost use Rattle.reader.specs.NameTables.{names_in};

use copy_vec::CopyVec;

// Up to 64 names in the order in which they were met.
#[derive(Clone, Copy)]
pub struct Names<'a> {
    names: CopyVec<&'a [u8], 64>,
}

impl<'a> Names<'a> {
    pub fn new() -> Names<'a>
        ensures { names_in result ≡ [] }
    {
        Names {
            names: CopyVec::new(),
        }
    }

    pub fn len(&self) -> usize
        ensures value { result ≡ length (names_in self.now) }
        ensures bound { result ≤ 64 }
    {
        self.names.len()
    }

    // Where a name stands, from 0.
    pub fn place(&self, name: &[u8]) -> Option<usize>
        ensures value { result ≡ place name.now (names_in self.now) }
        ensures bound { IfSome result (λ k. k < length (names_in self.now)) }
        ensures few { length (names_in self.now) ≤ 64 }
    {
        self.names.iter().position(|held| name == *held)
    }

    pub fn has(&self, name: &[u8]) -> bool
        ensures { result ≡ among name.now (names_in self.now) }
    {
        self.place(name).is_some()
    }

    // One name more, where there is room.
    pub fn push(&mut self, name: &'a [u8])
        requires { length (names_in self.old) < 64 }
        ensures { names_in self.new ≡ names_in self.old ++ name.now ∷ [] }
    {
        self.names.push(name);
    }
}
