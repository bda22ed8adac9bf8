ghost use Rattle.std.specs.Prelude.{◌≡◌, length};
ghost use Rattle.std.proofs.Common.{rules as std_rules};
ghost use Rattle.kinds.specs.Holders.{held_in};
ghost use Rattle.kinds.specs.Held.{rings_within};

use crate::kind::{Kind, MOST_PORTS};
use crate::offers::Offers;
use crate::ring::Ring;
use crate::rule::Rule;
use rules::offer::{Offer, Reply, Side};
use std::alloc::{AllocError, Global};
use std::marker::PhantomData;

// A kind that holds messages by a rule.
#[derive(Drop)]
pub struct Buffer<R> {
    offers: Offers,
    // One for each port.
    rings: [Ring; MOST_PORTS],
    rule: PhantomData<R>,
}

impl<R> Buffer<R> {
    // How many messages a port holds.
    fn count(&self, port: u8) -> usize
        ensures { result ≡ length (held_in self.now.rings port) }
    {
        self.rings
            .get(usize::from(port))
            .map_or(0, |ring| ring.count)
    }
}

impl<R: Rule> Kind for Buffer<R> {
    ghost meaning = { λ s. record { offers = s.offers.list.items; held = held_in s.rings; clock = s.offers.clock } };

    ghost rules = { R.Rule.rules };

    ghost lawful = { R.Rule.lawful };

    ghost within = { λ s. rings_within s.offers.list.items s.rings s.offers.clock };

    fn fresh(heap: Global) -> Result<Self, AllocError> {
        let offers = Offers::new(heap)?;
        Ok(Buffer {
            offers,
            rings: [Ring::EMPTY; MOST_PORTS],
            rule: PhantomData,
        })
    }

    fn enrol(&mut self, o: Offer) -> bool {
        self.offers.enrol(o)
    }

    fn withdraw(&mut self, sync: u32) {
        self.offers.withdraw(sync);
    }

    fn tell(&mut self, ms: u32) {
        self.offers.clock = ms;
    }

    fn poll(&self, o: Offer) -> Reply {
        let count = self.count(o.port);
        let open = match o.side {
            Side::Give => count < R::ROOM,
            Side::Take => 0 < count,
        };
        if open && self.offers.has(o) {
            Reply::Alone
        } else {
            Reply::Closed
        }
    }

    fn commit<M: Copy>(&mut self, o: Offer, message: M, cells: &mut [M]) -> Option<M> {
        let Reply::Alone = self.poll(o) else {
            return None;
        };
        let ring = &mut self.rings[usize::from(o.port)];
        match o.side {
            Side::Give => {
                ring.push(message, cells);
                None
            }
            Side::Take => {
                let oldest = ring.front(cells);
                if !R::KEEPS {
                    ring.pop();
                }
                Some(oldest)
            }
        }
    }

    fn waiting(&self) -> &[Offer] {
        self.offers.list.as_slice()
    }
}
