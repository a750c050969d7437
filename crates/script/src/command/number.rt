// The decimal numbers of commands.
ghost use Rattle.std.specs.Prelude.{◌≡◌};
ghost use Rattle.script.specs.Commands.{number};

use scan::decimal;

// A decimal number up to 65,535.
pub fn read_number(word: &[u8]) -> Option<u16>
    ensures { result ≡ number word.now }
{
    u16::try_from(decimal(word)?).ok()
}
