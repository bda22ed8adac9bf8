ghost use Rattle.std.specs.Prelude.{◌≡◌};
ghost use Rattle.replay.specs.Policies.{idler, idlest, longest_idle};
ghost use Rattle.replay.proofs.Idlest.{longest_idle_law};
ghost use Rattle.policy.specs.declared.longest_idle.LongestIdle.{LongestIdle};

use crate::policy::Policy;
use replay::candidate::Candidate;

// The task that has been idle for longest, and its first leaf.
#[derive(Clone, Copy)]
pub struct LongestIdle;

// Whether one task goes before another: the smaller stamp, then the smaller number.
fn idler(c: &Candidate, d: &Candidate) -> bool
    ensures { result ≡ idler c.now d.now }
{
    c.stamp < d.stamp || (c.stamp == d.stamp && c.task < d.task)
}

// The place of the idlest, the first of equals; 0 where there is none.
fn idlest(able: &[Candidate]) -> usize
    ensures { result ≡ idlest able.now }
{
    let mut best = 0;
    for (place, c) in able.iter().enumerate() {
        if idler(c, &able[best]) {
            best = place;
        }
    }
    best
}

impl Policy for LongestIdle {
    ghost rules = { longest_idle };

    ghost inside = { (longest_idle_law LongestIdle).inside };

    fn name_task(&mut self, able: &[Candidate]) -> usize {
        idlest(able)
    }

    fn name_leaf(&mut self, _leaves: &[u8]) -> usize {
        0
    }
}
