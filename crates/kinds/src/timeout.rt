ghost use Rattle.rules.specs.Delivered as delivered;
ghost use Rattle.std.proofs.Common.{lit<, refl};
ghost use Rattle.rules.specs.declared.kind.BaseKind.TheVariants.{Timeout as TimeoutKind};
ghost use Rattle.rules.specs.Limits.{most_held};
ghost use Rattle.rules.proofs.DeliveredKinds.{delivered_lawful};

use crate::bare::{Bare, BareRule, among};
use rules::offer::{Offer, Reply, Side};

// Timeouts: open at their due time and after.
pub type Timeout = Bare<TimeoutRule>;

pub struct TimeoutRule;

impl BareRule for TimeoutRule {
    ghost rules = { delivered.timeout };

    ghost lawful = { delivered_lawful most_held (lit< tt) TimeoutKind };

    ghost bare = { refl };

    fn reply(waiting: &[Offer], clock: u32, o: Offer) -> Reply {
        Self::reply_to_any(waiting, clock, o)
    }

    // Only a take that is due is looked for.
    fn reply_to_any(waiting: &[Offer], clock: u32, o: Offer) -> Reply {
        match o.side {
            Side::Take if o.due <= u64::from(clock) && among(waiting, o) => Reply::Alone,
            _ => Reply::Closed,
        }
    }
}
