ghost use Rattle.std.specs.Prelude.{◌≡◌};
ghost use Rattle.tokens.specs.Places.{Smallest};
ghost use Rattle.grammar.specs.Parts.{told, parts_of};
ghost use Rattle.passes.specs.Ranges.{AllRanged};
ghost use Rattle.passes.specs.Names.{declares, names, Misnamed};
ghost use Rattle.passes.specs.Declarations.{Small, Mentions, holds, Empty, Added, Declaring, Lacking, KnowsAll};

use crate::ranges::{BODIES, LAST_BODY, LAST_PORT, PORTS};
use grammar::part::Part;
use grammar::words::{NumberUse, Use};
use message::decimal::read_number;

// A port or a body by its number, which is in range wherever one is made: types that say so would be
// two structs, to save two clauses.
#[derive(Clone, Copy)]
enum Name {
    Port(u32),
    Body(u32),
}

// The ports and the bodies that are declared, by their numbers. A set of the library would take
// memory, and this pass never fails for want of it.
#[derive(Clone, Copy)]
struct Declared {
    ports: [bool; PORTS],
    bodies: [bool; BODIES],
}

impl Declared {
    fn new() -> Declared
        ensures { Empty result }
    {
        Declared {
            ports: [false; PORTS],
            bodies: [false; BODIES],
        }
    }

    // A `u32` has no `From` to an index.
    fn contains(&self, name: Name) -> bool
        requires { Small name }
        ensures { result ≡ holds self.now name }
    {
        match name {
            Name::Port(n) => self.ports[n as usize],
            Name::Body(n) => self.bodies[n as usize],
        }
    }

    fn insert(&mut self, name: Name)
        requires { Small name }
        ensures { Added self.old name self.new }
    {
        match name {
            Name::Port(n) => self.ports[n as usize] = true,
            Name::Body(n) => self.bodies[n as usize] = true,
        }
    }

    // Takes in what the part declares; whether that was there before.
    fn declare(&mut self, part: Part<'_>) -> bool
        ensures { Declaring (told part.entry) self.old self.new result }
    {
        let Some(name) = declared_by(part) else {
            return false;
        };
        let is_again = self.contains(name);
        self.insert(name);
        is_again
    }

    // Whether the part names what is not there.
    fn lacks(&self, part: Part<'_>) -> bool
        ensures { Lacking (told part.entry) self.now result }
    {
        named_by(part).is_some_and(|name| !self.contains(name))
    }
}

// The port or the body that the part declares, if its number is in range.
fn declared_by(part: Part<'_>) -> Option<Name>
    ensures { Mentions declares (told part.entry) result }
{
    let Use::Number(number) = part.purpose else {
        return None;
    };
    let bytes = part.bytes();
    match number {
        NumberUse::NewPort(_) => read_number(bytes, LAST_PORT).map(Name::Port),
        NumberUse::NewBody => read_number(bytes, LAST_BODY).map(Name::Body),
        _ => None,
    }
}

// The port or the body that the part names, if its number is in range. It reads as the one above does,
// but of other uses, and the two are told apart by definitions of their own.
fn named_by(part: Part<'_>) -> Option<Name>
    ensures { Mentions names (told part.entry) result }
{
    let Use::Number(number) = part.purpose else {
        return None;
    };
    let bytes = part.bytes();
    match number {
        NumberUse::SendPort | NumberUse::RecvPort => read_number(bytes, LAST_PORT).map(Name::Port),
        NumberUse::SpawnBody | NumberUse::NackBody => read_number(bytes, LAST_BODY).map(Name::Body),
        _ => None,
    }
}

fn all_declared(parts: &[Part<'_>]) -> Declared
    ensures { AllRanged (parts_of parts.now) → KnowsAll (parts_of parts.now) result }
{
    let mut declared = Declared::new();
    for part in parts {
        declared.declare(*part);
    }
    declared
}

// The number of the first token that declares a name again or names what is not declared. Where
// only body 0 is missing, it is the number of tokens.
pub fn first_misnamed(parts: &[Part<'_>]) -> Option<usize>
    ensures { AllRanged (parts_of parts.now) → Smallest (Misnamed (parts_of parts.now)) result }
{
    // A name may stand before its declaration.
    let declared = all_declared(parts);
    let mut seen = Declared::new();
    for (i, part) in parts.iter().enumerate() {
        if seen.declare(*part) || declared.lacks(*part) {
            return Some(i);
        }
    }
    if declared.contains(Name::Body(0)) {
        None
    } else {
        Some(parts.len())
    }
}
