ghost use Rattle.std.specs.Prelude.{◌≡◌, ◌≤◌, not, [], ◌∷◌, ◌++◌, IfOk, if◌then◌else◌, vec_len, vec_capacity, filter, ◌==◌};
ghost use Rattle.rules.specs.Kinds.{most_offers, leaf_waits, accepts};
ghost use Rattle.rules.specs.Delivered.{among};

use rules::offer::Offer;
use std::alloc::{AllocError, Global};

// Room for every leaf that can wait, and for one post.
pub const MOST_OFFERS: usize = 1025;

// The offers that wait, in memory taken once, and the clock that their kind was told.
#[derive(Drop)]
pub struct Offers {
    pub list: Vec<Offer>,
    pub clock: u32,
    ghost room: { most_offers ≤ vec_capacity list },
    ghost few: { vec_len list ≤ most_offers },
}

// Whether just this offer waits. The sync number tells most offers apart.
pub fn among(waiting: &[Offer], o: Offer) -> bool
    ensures { result ≡ among o waiting.now }
{
    waiting.iter().any(|q| q.sync == o.sync && *q == o)
}

impl Offers {
    pub fn new(heap: Global) -> Result<Self, AllocError>
        ensures list { IfOk result (λ s. s.list.items ≡ []) }
        ensures clock { IfOk result (λ s. s.clock ≡ 0) }
    {
        let list = Vec::with_capacity(heap, MOST_OFFERS)?;
        Ok(Offers { list, clock: 0 })
    }

    // Whether just this offer waits.
    pub fn has(&self, o: Offer) -> bool
        ensures { result ≡ among o self.now.list.items }
    {
        among(&self.list, o)
    }

    // Whether an offer of the same leaf waits.
    fn leaf_waits(&self, o: Offer) -> bool
        ensures { result ≡ leaf_waits o.sync o.leaf self.now.list.items }
    {
        self.list
            .iter()
            .filter(|q| q.sync == o.sync)
            .any(|q| q.leaf == o.leaf)
    }

    pub fn enrol(&mut self, o: Offer) -> bool
        ensures answer { result ≡ accepts self.old.list.items o }
        ensures clock { self.new.clock ≡ self.old.clock }
        ensures after { self.new.list.items ≡ (if accepts self.old.list.items o then self.old.list.items ++ (o ∷ []) else self.old.list.items) }
    {
        if self.list.len() >= MOST_OFFERS || self.leaf_waits(o) {
            return false;
        }
        self.list.push_reserved(o);
        true
    }

    pub fn withdraw(&mut self, sync: u32)
        ensures clock { self.new.clock ≡ self.old.clock }
        ensures after { self.new.list.items ≡ filter (λ o. not (o.sync == sync)) self.old.list.items }
    {
        self.list.retain(|o| o.sync != sync);
    }
}
