// A walk begun: the file that declares `Links` cannot cite what is left.
ghost use Rattle.std.specs.Prelude.{◌≡◌, map};
ghost use Rattle.chain.specs.Chains.{Ends};
ghost use Rattle.chain.specs.Links.{links_left};
ghost use Rattle.chain.specs.Records.{records_at};
ghost use Rattle.chain.specs.Walks.{walk};

use crate::Linked;
use crate::links::Links;

// The records along the chain from `first`. The caller owes a chain.
pub fn iter<R: Linked>(records: &[R], first: u8) -> Links<'_, R>
    requires { Ends (map R.Linked.successor records.now) first }
    ensures { links_left result ≡ records_at records.now (walk (map R.Linked.successor records.now) first) }
{
    Links { records, at: first }
}
