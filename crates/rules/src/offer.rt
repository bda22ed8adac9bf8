// Which way a message goes.
#[derive(Clone, Copy, Debug, PartialEq, Eq)]
pub enum Side {
    Give,
    Take,
}

// What one leaf of a sync offers at a base event kind.
#[derive(Clone, Copy, Debug, PartialEq, Eq)]
pub struct Offer {
    pub sync: u32,
    pub leaf: u8,
    // 0 where unused: an offer is the same five values at every kind, so that any kind can be asked.
    pub port: u8,
    pub side: Side,
    // The clock at which it is due, 0 where unused; past 32 bits where the delay goes beyond them.
    pub due: u64,
}

// What a poll of an offer replies.
#[derive(Clone, Copy, Debug, PartialEq, Eq)]
pub enum Reply {
    Closed,
    // Open by itself.
    Alone,
    // Open together with this other offer.
    With { sync: u32, leaf: u8 },
}
