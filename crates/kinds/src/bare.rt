ghost use Rattle.std.specs.Prelude.{◌≡◌, false, []};
ghost use Rattle.rules.specs.Limits.{most_held};
ghost use Rattle.rules.specs.Kinds.{Kind as Rules, Lawful};
ghost use Rattle.rules.specs.Delivered.{if_waits};
ghost use Rattle.std.proofs.Common.{rules as std_rules};

use crate::kind::Kind;
use crate::offers::Offers;
pub use crate::offers::among;
use rules::offer::{Offer, Reply};
use std::alloc::{AllocError, Global};
use std::marker::PhantomData;

// How a kind that holds nothing differs from others that hold nothing.
pub trait BareRule: Sized {
    ghost rules: { Rules };

    // How an offer stands, if it waits.
    fn reply(waiting: &[Offer], clock: u32, o: Offer) -> Reply
        ensures { if_waits o waiting.now result ≡ rules.poll waiting.now (λ p. 0) clock o };

    // How any offer stands: one that does not wait is closed. A rule that can tell so of some offers
    // without a search has a body of its own.
    fn reply_to_any(waiting: &[Offer], clock: u32, o: Offer) -> Reply
        ensures { result ≡ rules.poll waiting.now (λ p. 0) clock o }
    {
        if among(waiting, o) {
            Self::reply(waiting, clock, o)
        } else {
            Reply::Closed
        }
    }

    ghost lawful: { Lawful most_held rules };

    ghost bare: { rules.holds ≡ false };
}

// A kind that holds nothing, by its rule. What it does with its offers a buffer does too; they differ
// in poll and commit, and hand the rest on.
#[derive(Drop)]
pub struct Bare<R> {
    offers: Offers,
    rule: PhantomData<R>,
}

impl<R: BareRule> Kind for Bare<R> {
    ghost meaning = { λ s. record { offers = s.offers.list.items; held = λ p. []; clock = s.offers.clock } };

    ghost rules = { R.BareRule.rules };

    ghost lawful = { R.BareRule.lawful };

    ghost within = { Prim.search std_rules };

    fn fresh(heap: Global) -> Result<Self, AllocError> {
        let offers = Offers::new(heap)?;
        Ok(Bare {
            offers,
            rule: PhantomData,
        })
    }

    fn enrol(&mut self, o: Offer) -> bool {
        self.offers.enrol(o)
    }

    fn withdraw(&mut self, sync: u32) {
        self.offers.withdraw(sync);
    }

    fn tell(&mut self, ms: u32) {
        self.offers.clock = ms;
    }

    fn poll(&self, o: Offer) -> Reply {
        R::reply_to_any(&self.offers.list, self.offers.clock, o)
    }

    fn commit<M: Copy>(&mut self, _o: Offer, _message: M, _cells: &mut [M]) -> Option<M> {
        None
    }

    fn waiting(&self) -> &[Offer] {
        self.offers.list.as_slice()
    }
}
