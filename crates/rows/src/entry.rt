ghost use Rattle.std.specs.Prelude.{◌≡◌, ◌<◌};
ghost use Rattle.message.specs.Numerals.{ReadsNumber};
ghost use Rattle.grammar.specs.Parts.{told, bytes};
ghost use Rattle.rows.specs.Entries.{bracket_entry, head_entry, NumberEntryRead, LiteralEntryRead, EntryRead};

use crate::row::{Instr, Node};
use grammar::part::Part;
use grammar::words::{BracketUse, Keyword, LiteralUse, NumberUse, PortKind, Use};
use message::decimal::read_number;
use message::kind::Message;
use message::literal::Literal;
use message::weight::Weight;
use passes::ranges::{LAST_BODY, LAST_PORT, LONGEST_DELAY};

// What a part of a script adds to its rows.
#[derive(Drop)]
pub enum Entry<M> {
    Port { kind: PortKind, number: u8 },
    // A body whose instructions begin here.
    Body { number: u8 },
    // A wait for the event whose row begins here.
    Sync,
    Instr(Instr),
    Node(Node<M>),
}

// The number of a port or a body, for which a byte is enough.
fn read_name(bytes: &[u8], max: u32) -> Option<u8>
    ensures { max < 256 → ReadsNumber max bytes.now result }
{
    u8::try_from(read_number(bytes, max)?).ok()
}

fn bracket_entry<M>(purpose: BracketUse) -> Option<Entry<M>>
    ensures { result ≡ bracket_entry purpose }
{
    match purpose {
        BracketUse::Open | BracketUse::Close => None,
        BracketUse::OpenSecond => Some(Entry::Node(Node::Else)),
        BracketUse::CloseTask => Some(Entry::Instr(Instr::End)),
        BracketUse::CloseSync => Some(Entry::Node(Node::EndSync)),
        BracketUse::CloseGuard => Some(Entry::Node(Node::EndGuard)),
        BracketUse::CloseNack => Some(Entry::Node(Node::EndNack)),
    }
}

fn head_entry<M>(word: Keyword) -> Option<Entry<M>>
    ensures { result ≡ head_entry word }
{
    match word {
        Keyword::Sync => Some(Entry::Sync),
        Keyword::Emit => Some(Entry::Instr(Instr::Emit)),
        Keyword::Again => Some(Entry::Instr(Instr::Again)),
        Keyword::Nack => Some(Entry::Node(Node::Nack)),
        Keyword::Wrap => Some(Entry::Node(Node::Wrap)),
        _ => None,
    }
}

fn number_entry<M>(purpose: NumberUse, bytes: &[u8]) -> Option<Entry<M>>
    ensures { NumberEntryRead purpose bytes.now result }
{
    Some(match purpose {
        NumberUse::NewPort(kind) => Entry::Port {
            kind,
            number: read_name(bytes, LAST_PORT)?,
        },
        NumberUse::NewBody => Entry::Body {
            number: read_name(bytes, LAST_BODY)?,
        },
        NumberUse::SendPort => Entry::Node(Node::Send(read_name(bytes, LAST_PORT)?)),
        NumberUse::RecvPort => Entry::Node(Node::Recv(read_name(bytes, LAST_PORT)?)),
        NumberUse::SpawnBody => Entry::Instr(Instr::Spawn {
            body: read_name(bytes, LAST_BODY)?,
        }),
        NumberUse::NackBody => Entry::Node(Node::WithNack(read_name(bytes, LAST_BODY)?)),
        NumberUse::Delay => Entry::Node(Node::Timeout(read_number(bytes, LONGEST_DELAY)?)),
        NumberUse::Addend => Entry::Node(Node::Add(Weight::read(bytes).ok()?.value)),
    })
}

fn literal_entry<M: Message>(purpose: LiteralUse, bytes: &[u8]) -> Option<Entry<M>>
    ensures { LiteralEntryRead M.Literal.literal purpose bytes.now result }
{
    let message = M::read(bytes).ok()?;
    Some(Entry::Node(match purpose {
        LiteralUse::InAlways => Node::Always(message),
        LiteralUse::InSet => Node::Set(message),
    }))
}

impl<M: Message> Entry<M> {
    // What a part adds, if anything. A number or a literal that cannot be read adds nothing: it has
    // been refused before.
    pub fn of(part: Part<'_>) -> Option<Entry<M>>
        ensures { EntryRead M.Literal.literal part.entry.purpose (bytes (told part.entry)) result }
    {
        match part.purpose {
            Use::Bracket(bracket) => bracket_entry(bracket),
            Use::Head(word) => head_entry(word),
            Use::Test(sign) => Some(Entry::Node(Node::Guard(sign))),
            Use::Number(number) => number_entry(number, part.bytes()),
            Use::Literal(literal) => literal_entry(literal, part.bytes()),
        }
    }
}
