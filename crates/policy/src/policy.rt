ghost use Rattle.std.specs.Prelude.{◌≡◌};
ghost use Rattle.replay.specs.Policies.{Policy as Rules, Inside};

use replay::candidate::Candidate;

// A policy. Its reply and its next state depend on its state and the list alone.
pub trait Policy: Sized {
    ghost rules: { Rules Self };

    // Names a place in the list of able tasks, which stand by rising number.
    fn name_task(&mut self, able: &[Candidate]) -> usize
        ensures place { result ≡ (rules.name_task self.old able.now).place }
        ensures next { self.new ≡ (rules.name_task self.old able.now).next };

    // Names a place in the list of a waiting task's open leaves, which rise.
    fn name_leaf(&mut self, leaves: &[u8]) -> usize
        ensures place { result ≡ (rules.name_leaf self.old leaves.now).place }
        ensures next { self.new ≡ (rules.name_leaf self.old leaves.now).next };

    // The place named is inside every list that is not empty.
    ghost inside: { Inside rules };
}
