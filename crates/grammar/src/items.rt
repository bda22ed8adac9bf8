ghost use Rattle.std.specs.Prelude.{◌≡◌, reverse};
ghost use Rattle.grammar.specs.declared.words.Use.TheVariants.{Bracket};
ghost use Rattle.grammar.specs.Grammar.{spelled, test_word};
ghost use Rattle.grammar.specs.Machine.{begins, keyword, tested, as_head, after, at_open, at_close, at_atom, expand};
ghost use Rattle.grammar.specs.Stacks.{reading, shown};
ghost use Rattle.tokens.specs.Reading.{lexeme};

use crate::words::{BracketUse, Keyword, LiteralUse, NumberUse, PortKind, Use};
use message::kind::Sign;
use tokens::token::Token;

// Where a form stands, which says what keywords it may have.
#[derive(Clone, Copy)]
pub enum Role {
    // A port or a body, with all that follows it.
    Top,
    // A body, with all that follow it.
    Body,
    Instr,
    Event,
    Action,
}

// What is expected of the tokens to come. A script is read over a stack of items: each token takes
// the place of the topmost, or of the first part of it, and what has to follow the token is put there.
#[derive(Clone, Copy)]
pub enum Item {
    // A script.
    Top,
    // Bodies, to the end.
    Bodies,
    // Instructions, and the bracket that closes their task.
    Instrs,
    // Events, and the bracket that closes their choice.
    Events,
    // An event, by the use of its opening bracket.
    Event(BracketUse),
    Action,
    // A form after its opening bracket.
    Head(Role),
    Number(NumberUse),
    Literal(LiteralUse),
    Test,
    // A closing bracket.
    Shut(BracketUse),
}

// What a token is there for, and what is expected then in place of the item, the last first, as on the stack.
#[derive(Clone, Copy)]
pub struct Reading {
    pub purpose: Use,
    pub next: &'static [Item],
}

fn heads(role: Role) -> &'static [Keyword]
    ensures { result.now ≡ begins role }
{
    match role {
        Role::Top => &[
            Keyword::Channel,
            Keyword::Mailbox,
            Keyword::Ivar,
            Keyword::Mvar,
            Keyword::Task,
        ],
        Role::Body => &[Keyword::Task],
        Role::Instr => &[Keyword::Sync, Keyword::Spawn, Keyword::Emit, Keyword::Again],
        Role::Event => &[
            Keyword::Never,
            Keyword::Always,
            Keyword::Send,
            Keyword::Recv,
            Keyword::Timeout,
            Keyword::Nack,
            Keyword::Choose,
            Keyword::Wrap,
            Keyword::Guard,
            Keyword::WithNack,
        ],
        Role::Action => &[Keyword::Set, Keyword::Add],
    }
}

fn spelling(k: Keyword) -> &'static [u8]
    ensures { result.now ≡ spelled k }
{
    match k {
        Keyword::Channel => b"channel",
        Keyword::Mailbox => b"mailbox",
        Keyword::Ivar => b"ivar",
        Keyword::Mvar => b"mvar",
        Keyword::Task => b"task",
        Keyword::Sync => b"sync",
        Keyword::Spawn => b"spawn",
        Keyword::Emit => b"emit",
        Keyword::Again => b"again",
        Keyword::Never => b"never",
        Keyword::Always => b"always",
        Keyword::Send => b"send",
        Keyword::Recv => b"recv",
        Keyword::Timeout => b"timeout",
        Keyword::Nack => b"nack",
        Keyword::Choose => b"choose",
        Keyword::Wrap => b"wrap",
        Keyword::Guard => b"guard",
        Keyword::WithNack => b"with-nack",
        Keyword::Set => b"set",
        Keyword::Add => b"add",
    }
}

// The keyword of the role that is spelled so.
#[tactic(auto, unfolding(crate::specs::Machine::keyword))]
fn keyword_of(role: Role, text: &[u8]) -> Option<Keyword>
    ensures { result ≡ keyword role text.now }
{
    heads(role).iter().copied().find(|k| text == spelling(*k))
}

fn test_spelling(sign: Sign) -> &'static [u8]
    ensures { result.now ≡ test_word sign }
{
    match sign {
        Sign::Neg => b"neg",
        Sign::Zero => b"zero",
        Sign::Pos => b"pos",
    }
}

#[tactic(auto, unfolding(crate::specs::Machine::tested))]
fn sign_of(text: &[u8]) -> Option<Sign>
    ensures { result ≡ tested text.now }
{
    [Sign::Neg, Sign::Zero, Sign::Pos]
        .into_iter()
        .find(|sign| text == test_spelling(*sign))
}

const CLOSE: Item = Item::Shut(BracketUse::Close);

const EVENT: Item = Item::Event(BracketUse::Open);

// What follows a keyword, the last first. A port's kind is not a part of its keyword: no `'static` slice
// can be made of a kind that is known at run time alone.
fn followers(k: Keyword) -> &'static [Item]
    ensures { reverse result.now ≡ after k }
{
    match k {
        Keyword::Channel => &[
            Item::Top,
            CLOSE,
            Item::Number(NumberUse::NewPort(PortKind::Channel)),
        ],
        Keyword::Mailbox => &[
            Item::Top,
            CLOSE,
            Item::Number(NumberUse::NewPort(PortKind::Mailbox)),
        ],
        Keyword::Ivar => &[
            Item::Top,
            CLOSE,
            Item::Number(NumberUse::NewPort(PortKind::Ivar)),
        ],
        Keyword::Mvar => &[
            Item::Top,
            CLOSE,
            Item::Number(NumberUse::NewPort(PortKind::Mvar)),
        ],
        Keyword::Task => &[Item::Bodies, Item::Instrs, Item::Number(NumberUse::NewBody)],
        Keyword::Sync => &[Item::Shut(BracketUse::CloseSync), EVENT],
        Keyword::Spawn => &[CLOSE, Item::Number(NumberUse::SpawnBody)],
        Keyword::Emit | Keyword::Again | Keyword::Never | Keyword::Nack => &[CLOSE],
        Keyword::Always => &[CLOSE, Item::Literal(LiteralUse::InAlways)],
        Keyword::Send => &[CLOSE, Item::Number(NumberUse::SendPort)],
        Keyword::Recv => &[CLOSE, Item::Number(NumberUse::RecvPort)],
        Keyword::Timeout => &[CLOSE, Item::Number(NumberUse::Delay)],
        Keyword::Choose => &[Item::Events],
        Keyword::Wrap => &[CLOSE, Item::Action, EVENT],
        Keyword::Guard => &[
            Item::Shut(BracketUse::CloseGuard),
            Item::Event(BracketUse::OpenSecond),
            EVENT,
            Item::Test,
        ],
        Keyword::WithNack => &[
            Item::Shut(BracketUse::CloseNack),
            EVENT,
            Item::Number(NumberUse::NackBody),
        ],
        Keyword::Set => &[CLOSE, Item::Literal(LiteralUse::InSet)],
        Keyword::Add => &[CLOSE, Item::Number(NumberUse::Addend)],
    }
}

fn bracket(u: BracketUse, next: &'static [Item]) -> Reading
    ensures { reading result ≡ (Bracket u, reverse next.now) }
{
    Reading {
        purpose: Use::Bracket(u),
        next,
    }
}

// An opening bracket where the item is expected; None where it does not fit.
fn at_open(item: Item) -> Option<Reading>
    ensures { shown result ≡ at_open item }
{
    Some(match item {
        Item::Top => bracket(BracketUse::Open, &[Item::Head(Role::Top)]),
        Item::Bodies => bracket(BracketUse::Open, &[Item::Head(Role::Body)]),
        Item::Instrs => bracket(BracketUse::Open, &[Item::Instrs, Item::Head(Role::Instr)]),
        Item::Events => bracket(BracketUse::Open, &[Item::Events, Item::Head(Role::Event)]),
        Item::Event(u) => bracket(u, &[Item::Head(Role::Event)]),
        Item::Action => bracket(BracketUse::Open, &[Item::Head(Role::Action)]),
        _ => return None,
    })
}

fn at_close(item: Item) -> Option<Reading>
    ensures { shown result ≡ at_close item }
{
    Some(match item {
        Item::Instrs => bracket(BracketUse::CloseTask, &[]),
        Item::Events => bracket(BracketUse::Close, &[]),
        Item::Shut(u) => bracket(u, &[]),
        _ => return None,
    })
}

fn at_head(role: Role, text: &[u8]) -> Option<Reading>
    ensures { shown result ≡ as_head (keyword role text.now) }
{
    let k = keyword_of(role, text)?;
    Some(Reading {
        purpose: Use::Head(k),
        next: followers(k),
    })
}

fn at_atom(item: Item, text: &[u8]) -> Option<Reading>
    ensures { shown result ≡ at_atom item text.now }
{
    let purpose = match item {
        Item::Head(role) => return at_head(role, text),
        Item::Test => Use::Test(sign_of(text)?),
        Item::Number(u) => Use::Number(u),
        Item::Literal(u) => Use::Literal(u),
        _ => return None,
    };
    Some(Reading { purpose, next: &[] })
}

// A token there. Whether a number is an integer is not asked here.
pub fn at_token(item: Item, token: Token<'_>) -> Option<Reading>
    ensures { shown result ≡ expand item (lexeme token.entry) }
{
    match token {
        Token::Open { .. } => at_open(item),
        Token::Close { .. } => at_close(item),
        Token::Integer { text, .. } | Token::Word { text, .. } => at_atom(item, text),
    }
}
