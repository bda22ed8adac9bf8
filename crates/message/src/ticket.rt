ghost use Rattle.std.specs.Prelude.{◌≡◌};
ghost use Rattle.message.specs.Tickets.{ticket_blank, ticket_parts, ticket_literal, ticket_plus, ticket_sign};
ghost use Rattle.message.specs.Ticketing.{ticket_one, ticket_plain, ticket_short};

use crate::joined::Joined;
use crate::kind::{Message, Sign};
use crate::literal::{Lead, Literal, LiteralFault};
use crate::page::PageFull;
use crate::weight::Weight;

// A gross weight and a tare.
#[derive(Clone, Copy, Debug, PartialEq, Eq)]
pub struct Ticket {
    pub gross: Weight,
    pub tare: Weight,
}

impl From<Ticket> for Joined<Weight, Weight> {
    ghost from_gives = { λ t j. j ≡ ticket_parts t };

    fn from(ticket: Ticket) -> Joined<Weight, Weight> {
        Joined {
            left: ticket.gross,
            right: ticket.tare,
        }
    }
}

impl From<Joined<Weight, Weight>> for Ticket {
    ghost from_gives = { λ j t. j ≡ ticket_parts t };

    fn from(parts: Joined<Weight, Weight>) -> Ticket {
        Ticket {
            gross: parts.left,
            tare: parts.right,
        }
    }
}

impl Literal for Ticket {
    ghost literal = { ticket_literal };

    ghost one = { λ a b e. ticket_one a b e };

    ghost plain = { λ t. ticket_plain t };

    ghost short = { λ t. ticket_short t };

    fn room_after(self, room: usize) -> Option<usize> {
        Joined::from(self).room_after(room)
    }

    fn write(self, page: &mut [u8], at: usize) -> Result<usize, PageFull> {
        Joined::from(self).write(b'/', page, at)
    }

    fn lead(s: &[u8]) -> Lead<Ticket> {
        let Lead { length, value } = Joined::<Weight, Weight>::lead(b'/', s);
        Lead {
            length,
            value: value.map(Ticket::from),
        }
    }
}

impl Message for Ticket {
    ghost initial = { ticket_blank };

    ghost plus = { ticket_plus };

    ghost message_sign = { ticket_sign };

    fn blank() -> Self {
        Ticket {
            gross: Weight::blank(),
            tare: Weight::blank(),
        }
    }

    fn add(self, k: i32) -> Self {
        Ticket {
            tare: self.tare.add(k),
            ..self
        }
    }

    fn sign(self) -> Sign {
        Sign::from(i64::from(self.gross.value) - i64::from(self.tare.value))
    }
}
