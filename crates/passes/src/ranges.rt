ghost use Rattle.std.specs.Prelude.{IsTrue, ◌↔◌};
ghost use Rattle.tokens.specs.Places.{Smallest};
ghost use Rattle.grammar.specs.Parts.{told, parts_of, bytes};
ghost use Rattle.passes.specs.Ranges.{InRange, Ranged, IsOutOfRange};

use grammar::part::Part;
use grammar::words::{NumberUse, Use};
use message::decimal::read_number;
use message::literal::Literal;
use message::weight::Weight;

pub const LAST_PORT: u32 = 15;

pub const LAST_BODY: u32 = 31;

// What is kept for each port or body is kept in so many places.
pub const PORTS: usize = LAST_PORT as usize + 1;

pub const BODIES: usize = LAST_BODY as usize + 1;

// A day, in milliseconds.
pub const LONGEST_DELAY: u32 = 86_400_000;

fn is_in_range(number: NumberUse, bytes: &[u8]) -> bool
    ensures { IsTrue result ↔ InRange number bytes.now }
{
    let max = match number {
        NumberUse::NewPort(_) | NumberUse::SendPort | NumberUse::RecvPort => LAST_PORT,
        NumberUse::NewBody | NumberUse::SpawnBody | NumberUse::NackBody => LAST_BODY,
        NumberUse::Delay => LONGEST_DELAY,
        // A signed number of 32 bits, as a weight is.
        NumberUse::Addend => return Weight::read(bytes).is_ok(),
    };
    read_number(bytes, max).is_some()
}

fn is_ranged(part: Part<'_>) -> bool
    ensures { IsTrue result ↔ Ranged part.entry.purpose (bytes (told part.entry)) }
{
    match part.purpose {
        Use::Number(number) => is_in_range(number, part.bytes()),
        _ => true,
    }
}

// The number of the first token that is a number out of its range.
pub fn first_out_of_range(parts: &[Part<'_>]) -> Option<usize>
    ensures { Smallest (IsOutOfRange (parts_of parts.now)) result }
{
    parts.iter().position(|part| !is_ranged(*part))
}
