ghost use Rattle.grammar.specs.Parts.{told, parts_of};
ghost use Rattle.passes.specs.Refusals.{Admits, Refuses};

use grammar::part::Part;
use grammar::words::Use;
use message::kind::Message;
use message::literal::LiteralFault;

// The number of a token, and why its bytes are no literal of a message.
#[derive(Clone, Copy)]
pub struct RefusedLiteral {
    pub token: usize,
    pub fault: LiteralFault,
}

fn check_literal<M: Message>(part: Part<'_>) -> Result<(), LiteralFault>
    ensures { Admits M.Literal.literal (told part.entry) result }
{
    if let Use::Literal(_) = part.purpose {
        M::read(part.bytes())?;
    }
    Ok(())
}

// The first token that is a literal, and no message's.
pub fn first_refused_literal<M: Message>(parts: &[Part<'_>]) -> Option<RefusedLiteral>
    ensures { Refuses M.Literal.literal (parts_of parts.now) result }
{
    for (token, part) in parts.iter().enumerate() {
        if let Err(fault) = check_literal::<M>(*part) {
            return Some(RefusedLiteral { token, fault });
        }
    }
    None
}
