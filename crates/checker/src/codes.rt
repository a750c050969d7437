// The codes of a domain and the settled ones among them, gone through from the lowest up.
ghost use Rattle.std.specs.Prelude.{◌≡◌, ◌∷◌, if◌then◌else◌};
ghost use Rattle.semantics.specs.Cases.{settled_codes};
ghost use Rattle.checker.specs.Walks.{above, set_of, Known, Follows};

use domain::Domain;

// A domain with its size and its first settled code.
#[derive(Drop)]
pub struct Codes<'d, D: Domain> {
    domain: &'d D,
    size: u16,
    least: u16,
    ghost known: { Known (D.Domain.model domain.now) size least },
}

// The first settled code: by the laws of a domain there is one.
fn first_settled<D: Domain>(domain: &D) -> u16
    ensures { settled_codes (D.Domain.model domain.now) ≡ result ∷ above result (settled_codes (D.Domain.model domain.now)) }
{
    (0..domain.size())
        .find(|code| domain.settled(*code))
        .unwrap()
}

impl<'d, D: Domain> Codes<'d, D> {
    pub fn of(domain: &'d D) -> Self
        ensures { result.domain.now ≡ domain.now }
    {
        Codes {
            domain,
            size: domain.size(),
            least: first_settled(domain),
        }
    }

    pub fn domain(&self) -> &'d D
        ensures { result.now ≡ self.now.domain.now }
    {
        self.domain
    }

    // The first code of an entry: of all codes where it is free, of the settled ones where it is a choice.
    pub fn first(&self, free: bool) -> u16
        ensures { result ≡ (if free then 0 else self.now.least) }
    {
        if free { 0 } else { self.least }
    }

    // The next code above `code`, of the same codes.
    pub fn next(&self, free: bool, code: u16) -> Option<u16>
        ensures { Follows (set_of (D.Domain.model self.now.domain.now) free) code result }
    {
        (code.saturating_add(1)..self.size).find(|next| free || self.domain.settled(*next))
    }
}
