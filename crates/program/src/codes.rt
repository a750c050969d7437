// Lists of numbers held against a domain.
ghost use Rattle.std.specs.Prelude.{◌≡◌, nat_lt};
ghost use Rattle.std.specs.List.{list_all};

use domain::Domain;

// Whether every number is a code.
pub fn all_codes<D: Domain>(domain: &D, numbers: &[u16]) -> bool
    ensures { result ≡ list_all (λ c. nat_lt c (D.Domain.model domain.now).size) numbers.now }
{
    let size = domain.size();
    numbers.iter().all(|number| *number < size)
}

// Whether every number is a settled code.
pub fn all_settled<D: Domain>(domain: &D, numbers: &[u16]) -> bool
    ensures { result ≡ list_all (D.Domain.model domain.now).settled numbers.now }
{
    numbers.iter().all(|number| domain.settled(*number))
}
