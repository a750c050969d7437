// What a reader of texts refuses.
ghost use Rattle.std.specs.Prelude.{◌≡◌};
ghost use Rattle.reader.specs.declared.fault.ReadFault.TheVariants.{Text, Domain};
ghost use Rattle.reader.specs.ReadFaults.{text_number, located, read_fault};

use domain::fault::DomainFault;

// Each fault stands for the number by which it is told.
#[derive(Clone, Copy, PartialEq, Eq, Debug)]
pub enum TextFault {
    // a text over 4,096 bytes
    TooLong = 1,
    // a line of no form, or out of order
    NoForm = 2,
    // a number outside -128 to 255, or a code over 65,535
    NumberOutside = 3,
    TooMany = 4,
    // a name that is not readable where it stands, or taken already
    BadName = 5,
    // a mark that may not stand on its operation, or is repeated
    BadMark = 6,
}

impl TextFault {
    // The number by which a refusal is told.
    pub fn number(self) -> u8
        ensures { result ≡ text_number self }
    {
        self as u8
    }
}

// A fault with the line that it stands on, counted from 1; 0 is the text as a whole.
#[derive(Clone, Copy, PartialEq, Eq, Debug)]
pub struct At<F> {
    pub line: u16,
    pub fault: F,
}

#[derive(Clone, Copy, PartialEq, Eq, Debug)]
pub enum ReadFault {
    Text(At<TextFault>),
    Domain(At<DomainFault>),
}

impl From<At<TextFault>> for ReadFault {
    ghost from_gives = { λ e r. r ≡ Text e };

    fn from(e: At<TextFault>) -> ReadFault {
        ReadFault::Text(e)
    }
}

impl From<At<DomainFault>> for ReadFault {
    ghost from_gives = { λ e r. r ≡ Domain e };

    fn from(e: At<DomainFault>) -> ReadFault {
        ReadFault::Domain(e)
    }
}

impl ReadFault {
    // A fault of the text on a line.
    pub fn text(line: u16, fault: TextFault) -> ReadFault
        ensures { result ≡ Text (record { line = line; fault = fault }) }
    {
        ReadFault::Text(At { line, fault })
    }

    // The number by which a refusal is told.
    pub fn number(self) -> u8
        ensures { result ≡ (read_fault self).number }
    {
        match self {
            ReadFault::Text(at) => at.fault.number(),
            ReadFault::Domain(at) => at.fault.number(),
        }
    }

    pub fn line(self) -> u16
        ensures { result ≡ (read_fault self).line }
    {
        match self {
            ReadFault::Text(at) => at.line,
            ReadFault::Domain(at) => at.line,
        }
    }
}

// The same result, its fault with a line.
pub fn on_line<T, F>(line: u16, answer: Result<T, F>) -> Result<T, At<F>>
    ensures { result ≡ located line answer }
{
    answer.map_err(|fault| At { line, fault })
}
