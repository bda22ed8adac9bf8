ghost use Rattle.std.specs.Prelude.{◌≡◌, filter};
ghost use Rattle.rules.specs.Delivered as delivered;
ghost use Rattle.rules.specs.Delivered.{fits, sooner, with_soonest};
ghost use Rattle.std.proofs.Common.{lit<, refl};
ghost use Rattle.grammar.specs.declared.words.PortKind.TheVariants.{Channel as ChannelKind};
ghost use Rattle.rules.specs.declared.kind.BaseKind.TheVariants.{Port};
ghost use Rattle.rules.specs.Limits.{most_held};
ghost use Rattle.rules.proofs.DeliveredKinds.{delivered_lawful};

use crate::bare::{Bare, BareRule, among};
use rules::offer::{Offer, Reply};

// Channels: two tasks meet.
pub type Channel = Bare<ChannelRule>;

pub struct ChannelRule;

// Whether an offer is a possible partner.
fn fits(o: Offer, q: Offer) -> bool
    ensures { result ≡ fits o q }
{
    q.sync != o.sync && q.port == o.port && q.side != o.side
}

// Whether one partner goes before another: the smaller sync number, then the smaller leaf number.
fn sooner(q: &Offer, r: &Offer) -> bool
    ensures { result ≡ sooner q.now r.now }
{
    q.sync < r.sync || (q.sync == r.sync && q.leaf < r.leaf)
}

// The soonest of the possible partners.
fn partner(waiting: &[Offer], o: Offer) -> Reply
    ensures { result ≡ with_soonest (filter (fits o) waiting.now) }
{
    waiting
        .iter()
        .filter(|q| fits(o, **q))
        .reduce(|best, q| if sooner(q, best) { q } else { best })
        .map_or(
            Reply::Closed,
            |q| Reply::With {
                sync: q.sync,
                leaf: q.leaf,
            },
        )
}

impl BareRule for ChannelRule {
    ghost rules = { delivered.channel };

    ghost lawful = { delivered_lawful most_held (lit< tt) (Port ChannelKind) };

    ghost bare = { refl };

    fn reply(waiting: &[Offer], clock: u32, o: Offer) -> Reply {
        Self::reply_to_any(waiting, clock, o)
    }

    fn reply_to_any(waiting: &[Offer], _clock: u32, o: Offer) -> Reply {
        if among(waiting, o) {
            partner(waiting, o)
        } else {
            Reply::Closed
        }
    }
}
