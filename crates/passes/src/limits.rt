ghost use Rattle.std.specs.Prelude.{◌≡◌, map, IsTrue, ◌↔◌};
ghost use Rattle.tokens.specs.Places.{Smallest};
ghost use Rattle.grammar.specs.Parts.{parts_of};
ghost use Rattle.passes.specs.Limits.{with_counted, Full, IsOverLimit};
ghost use Rattle.passes.specs.Tallies.{meant, tallied, counted_use, Room, FirstOver};

use grammar::part::Part;
use grammar::words::{Keyword, Use};

// Events in a script.
const MOST_EVENTS: usize = 1024;

// Leaves in a sync.
const MOST_LEAVES: usize = 16;

// With-nacks in a sync.
const MOST_NACKS: usize = 4;

// Instructions in a body.
const MOST_INSTRS: usize = 64;

// What a token counts as.
#[derive(Clone, Copy)]
enum Counted {
    Leaf,
    Nack,
    OtherEvent,
    Instr,
    Body,
    // Nothing; a case of its own, so that what follows says of each what it does.
    Other,
}

// How many there have been: events in all, leaves and with-nacks since the latest sync,
// instructions since the latest body.
#[derive(Clone, Copy, Default)]
struct Tally {
    events: usize,
    leaves: usize,
    nacks: usize,
    instrs: usize,
}

impl From<Use> for Counted {
    ghost from_gives = { λ u r. meant r ≡ counted_use u };

    fn from(purpose: Use) -> Counted {
        let Use::Head(keyword) = purpose else {
            return Counted::Other;
        };
        match keyword {
            Keyword::Always | Keyword::Send | Keyword::Recv | Keyword::Timeout | Keyword::Nack =>
                Counted::Leaf,
            Keyword::WithNack => Counted::Nack,
            Keyword::Never | Keyword::Choose | Keyword::Wrap | Keyword::Guard =>
                Counted::OtherEvent,
            Keyword::Sync | Keyword::Spawn | Keyword::Emit | Keyword::Again => Counted::Instr,
            Keyword::Task => Counted::Body,
            Keyword::Channel | Keyword::Mailbox | Keyword::Ivar | Keyword::Mvar => Counted::Other,
            Keyword::Set | Keyword::Add => Counted::Other,
        }
    }
}

impl Tally {
    // Whether one more is over the limit.
    fn is_full_for(self, counted: Counted) -> bool
        ensures { IsTrue result ↔ Full (tallied self) (meant counted) }
    {
        match counted {
            Counted::Leaf => self.events >= MOST_EVENTS || self.leaves >= MOST_LEAVES,
            Counted::Nack => self.events >= MOST_EVENTS || self.nacks >= MOST_NACKS,
            Counted::OtherEvent => self.events >= MOST_EVENTS,
            Counted::Instr => self.instrs >= MOST_INSTRS,
            Counted::Body | Counted::Other => false,
        }
    }

    fn count(&mut self, counted: Counted)
        requires { Room self.old }
        ensures { tallied self.new ≡ with_counted (tallied self.old) (meant counted) }
    {
        match counted {
            Counted::Leaf => {
                self.events += 1;
                self.leaves += 1;
            }
            Counted::Nack => {
                self.events += 1;
                self.nacks += 1;
            }
            Counted::OtherEvent => self.events += 1,
            Counted::Instr => {
                self.instrs += 1;
                self.leaves = 0;
                self.nacks = 0;
            }
            Counted::Body => self.instrs = 0,
            Counted::Other => {}
        }
    }
}

// The number of the first opening bracket whose keyword, the token after it, is one too many.
pub fn first_over_limit(parts: &[Part<'_>]) -> Option<usize>
    ensures place { Smallest (IsOverLimit (parts_of parts.now)) result }
    ensures any_tokens { FirstOver (map (λ p. p.purpose) parts.now) result }
{
    let mut tally = Tally::default();
    for (i, pair) in parts.windows(2).enumerate() {
        // The tally is of the tokens before the bracket, which is the first of the pair.
        if tally.is_full_for(pair[1].purpose.into()) {
            return Some(i);
        }
        tally.count(pair[0].purpose.into());
    }
    None
}
