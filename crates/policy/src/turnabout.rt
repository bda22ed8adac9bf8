ghost use Rattle.std.specs.Prelude.{◌≡◌, false};
ghost use Rattle.policy.specs.Turns.{end_place, turned, turnabout};
ghost use Rattle.std.proofs.Common.{rules as std_rules};

use crate::policy::Policy;
use replay::candidate::Candidate;

// First and last place by turns, of tasks and leaves alike.
#[derive(Clone, Copy)]
pub struct Turnabout {
    // Whether the next place is the last one.
    pub last: bool,
}

impl Turnabout {
    // Begins with the first place.
    pub fn new() -> Turnabout
        ensures { result ≡ record { last = false } }
    {
        Turnabout { last: false }
    }

    // The end of a list whose turn it is, by the list's length.
    fn turn(&mut self, length: usize) -> usize
        ensures place { result ≡ end_place self.old.last length }
        ensures next { self.new ≡ turned self.old }
    {
        let last = self.last;
        self.last = !last;
        if last { length.saturating_sub(1) } else { 0 }
    }
}

impl Policy for Turnabout {
    ghost rules = { turnabout };

    ghost inside = { Prim.search std_rules };

    fn name_task(&mut self, able: &[Candidate]) -> usize {
        self.turn(able.len())
    }

    fn name_leaf(&mut self, leaves: &[u8]) -> usize {
        self.turn(leaves.len())
    }
}
