ghost use Rattle.std.specs.Prelude.{◌≡◌, ℕ, ◌<◌, length, IfOk};
ghost use Rattle.rules.specs.Limits.{most_ports, most_held};
ghost use Rattle.rules.specs.Kinds.{Meaning, Kind as Rules, Lawful, accepts, enrolled, withdrawn, told, polled};
ghost use Rattle.kinds.specs.Stores.{Fresh, Within, Committed};
ghost use Rattle.rules.specs.Able.{soonest_closed};

use rules::offer::{Offer, Reply};
use std::alloc::{AllocError, Global};

// Ports of a script, and messages that each may hold.
pub const MOST_PORTS: usize = 16;

pub const MOST_HELD: usize = 32;

// A kind of base events.
pub trait Kind: Sized {
    // What it means: offers in order of enrolment, the clock, and what each port holds, oldest first,
    // by places among the port's own cells.
    ghost meaning: { Self → Meaning ℕ };

    // How it replies, and whether a take keeps the message.
    ghost rules: { Rules };

    // All its memory is taken here.
    fn fresh(heap: Global) -> Result<Self, AllocError>
        ensures { IfOk result (λ s. Fresh (meaning s)) };

    // Adds an offer at the end; false if it is refused, which changes nothing.
    fn enrol(&mut self, o: Offer) -> bool
        ensures answer { result ≡ accepts (meaning self.old).offers o }
        ensures after { meaning self.new ≡ enrolled o (meaning self.old) };

    // Removes the offers of one sync.
    fn withdraw(&mut self, sync: u32)
        ensures { meaning self.new ≡ withdrawn sync (meaning self.old) };

    // Sets the clock.
    fn tell(&mut self, ms: u32)
        ensures { meaning self.new ≡ told ms (meaning self.old) };

    // How an offer stands.
    fn poll(&self, o: Offer) -> Reply
        ensures { result ≡ polled rules (meaning self.now) o };

    // Carries out poll's reply, in the cells of the offer's port, and replies with what a take got.
    // The port's bound is asked here alone: a type of ports below 16 would ask it of enrol and poll.
    fn commit<M: Copy>(&mut self, o: Offer, message: M, cells: &mut [M]) -> Option<M>
        requires port { o.port < most_ports }
        requires cells { length cells.old ≡ most_held }
        ensures { Committed rules o message (meaning self.old) cells.old (meaning self.new) cells.new result };

    // The offers that wait.
    fn waiting(&self) -> &[Offer]
        ensures { result.now ≡ (meaning self.now).offers };

    ghost lawful: { Lawful most_held rules };

    // What is held has a place among the cells.
    ghost within: { (s : Self) → Within (meaning s) };
}

// The soonest due time of the offers that wait and are closed.
pub fn soonest_closed<K: Kind>(kind: &K) -> Option<u64>
    ensures { result ≡ soonest_closed K.Kind.rules (K.Kind.meaning kind.now) (K.Kind.meaning kind.now).offers }
{
    kind.waiting()
        .iter()
        .filter(|o| kind.poll(**o) == Reply::Closed)
        .map(|o| o.due)
        .min()
}
