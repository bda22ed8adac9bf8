ghost use Rattle.std.specs.Prelude.{false};
ghost use Rattle.rules.specs.Delivered as delivered;
ghost use Rattle.rules.specs.Limits.{most_held};
ghost use Rattle.std.proofs.Common.{lit<, lit≤, refl};
ghost use Rattle.grammar.specs.declared.words.PortKind.TheVariants.{Mailbox as MailboxKind};
ghost use Rattle.rules.specs.declared.kind.BaseKind.TheVariants.{Port};
ghost use Rattle.rules.proofs.DeliveredKinds.{delivered_lawful};

use crate::buffer::Buffer;
use crate::kind::MOST_HELD;
use crate::rule::Rule;

// Mailboxes: messages wait for takers, and the oldest goes first.
pub type Mailbox = Buffer<MailboxRule>;

pub struct MailboxRule;

impl Rule for MailboxRule {
    ghost rules = { delivered.mailbox most_held };

    ghost ROOM = { most_held };

    ghost KEEPS = { false };

    ghost lawful = { delivered_lawful most_held (lit< tt) (Port MailboxKind) };

    ghost few = { lit≤ tt };

    ghost holds = { refl };

    const ROOM: usize = MOST_HELD;

    const KEEPS: bool = false;
}
