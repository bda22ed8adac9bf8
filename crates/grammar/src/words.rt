use message::kind::Sign;

// The kinds of ports that a script declares.
#[derive(Clone, Copy, Debug, PartialEq, Eq)]
pub enum PortKind {
    Channel,
    Mailbox,
    Ivar,
    Mvar,
}

// The words that begin a form.
#[derive(Clone, Copy, Debug, PartialEq, Eq)]
pub enum Keyword {
    Channel,
    Mailbox,
    Ivar,
    Mvar,
    Task,
    Sync,
    Spawn,
    Emit,
    Again,
    Never,
    Always,
    Send,
    Recv,
    Timeout,
    Nack,
    Choose,
    Wrap,
    Guard,
    WithNack,
    Set,
    Add,
}

// What a bracket opens or closes, as far as it matters.
#[derive(Clone, Copy, Debug, PartialEq, Eq)]
pub enum BracketUse {
    // Any form but the second arm of a guard.
    Open,
    OpenSecond,
    // Any form but the four below.
    Close,
    CloseTask,
    CloseSync,
    CloseGuard,
    CloseNack,
}

// What a number says.
#[derive(Clone, Copy, Debug, PartialEq, Eq)]
pub enum NumberUse {
    // The port or the body that is declared.
    NewPort(PortKind),
    NewBody,
    // The port or the body that is named.
    SendPort,
    RecvPort,
    SpawnBody,
    NackBody,
    // The milliseconds of a timeout.
    Delay,
    // What a wrap adds.
    Addend,
}

// Where a literal stands.
#[derive(Clone, Copy, Debug, PartialEq, Eq)]
pub enum LiteralUse {
    InAlways,
    InSet,
}

// What a token of a script is there for.
#[derive(Clone, Copy, Debug, PartialEq, Eq)]
pub enum Use {
    Bracket(BracketUse),
    // The word after an opening bracket.
    Head(Keyword),
    // The test of a guard.
    Test(Sign),
    Number(NumberUse),
    Literal(LiteralUse),
}
