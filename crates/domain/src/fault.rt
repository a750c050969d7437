// What a domain refuses.
ghost use Rattle.std.specs.Prelude.{◌≡◌};
ghost use Rattle.domain.specs.Faults.{fault_number, literal_code, settled_code};

use crate::Domain;

// Each fault stands for the number by which it is told.
#[derive(Clone, Copy, PartialEq, Eq, Debug)]
pub enum DomainFault {
    // a constant that has no settled code
    NoSettledCode = 7,
    // a width that is not 1 to 8
    WrongWidth = 22,
}

impl DomainFault {
    // The number by which a refusal is told.
    pub fn number(self) -> u8
        ensures { result ≡ fault_number self }
    {
        self as u8
    }
}

// The code of a constant that is written as a code.
pub fn settled_code<D: Domain>(domain: &D, code: u16) -> Result<u16, DomainFault>
    ensures { result ≡ settled_code (D.Domain.model domain.now) code }
{
    if domain.settled(code) {
        Ok(code)
    } else {
        Err(DomainFault::NoSettledCode)
    }
}

// The code of a constant that is written as a number.
pub fn literal_code<D: Domain>(domain: &D, number: i16) -> Result<u16, DomainFault>
    ensures { result ≡ literal_code (D.Domain.model domain.now) number }
{
    let code = domain.literal(number).ok_or(DomainFault::NoSettledCode)?;
    settled_code(domain, code)
}
