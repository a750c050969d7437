// What evaluating refuses.
ghost use Rattle.std.specs.Prelude.{◌≡◌};
ghost use Rattle.program.specs.Faults.{fault_number};

#[derive(Clone, Copy, PartialEq, Debug)]
pub enum EvaluateFault {
    // not as many inputs as the program has, or not as many choices as it has freezes
    WrongCount = 20,
    // an input that is no code, or a choice that is not settled
    WrongCode = 21,
}

impl EvaluateFault {
    // The number by which a refusal is told.
    pub fn number(self) -> u8
        ensures { result ≡ fault_number self }
    {
        self as u8
    }
}
