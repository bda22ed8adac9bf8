ghost use Rattle.std.specs.Prelude.{◌≡◌};
ghost use Rattle.script.specs.declared.fault.Fault.TheVariants.{Text, Form, Names, Message, Memory};
ghost use Rattle.script.specs.Faults.{fault_number, fault_place, as_fault};

use grammar::form::ParseFault;
use message::literal::LiteralFault;
use std::alloc::AllocError;
use tokens::text::TextFault;

// The tokens are no script, or a number is out of its range.
#[derive(Clone, Copy, Debug, PartialEq, Eq)]
pub enum FormFault {
    Misfit { at: usize },
    OutOfRange { at: usize },
}

// A port or a body is declared again or not at all, or there are too many of something.
#[derive(Clone, Copy, Debug, PartialEq, Eq)]
pub enum NamesFault {
    Misnamed { at: usize },
    OverLimit { at: usize },
}

// A literal is not one of the message kind's, in the script or in a post.
#[derive(Clone, Copy, Debug, PartialEq, Eq)]
pub enum MessageFault {
    InScript { at: usize, fault: LiteralFault },
    InPost { fault: LiteralFault },
}

// Why a script is refused, by the layer that found it; or there was no memory to check it.
#[derive(Clone, Copy, Debug, PartialEq, Eq)]
pub enum Fault {
    Text(TextFault),
    Form(FormFault),
    Names(NamesFault),
    Message(MessageFault),
    Memory,
}

impl Fault {
    // The refusal's number, to be shown; want of memory is no refusal, and has 0, which none has.
    pub fn number(self) -> u32
        ensures { result ≡ fault_number self }
    {
        match self {
            Fault::Text(fault) => fault.number(),
            Fault::Form(FormFault::Misfit { .. }) => 4,
            Fault::Form(FormFault::OutOfRange { .. }) => 5,
            Fault::Names(NamesFault::Misnamed { .. }) => 6,
            Fault::Names(NamesFault::OverLimit { .. }) => 7,
            Fault::Message(MessageFault::InScript { .. }) => 8,
            Fault::Message(MessageFault::InPost { .. }) => 13,
            Fault::Memory => 0,
        }
    }

    // The refusal's place in the script, 0 where it has none.
    pub fn place(self) -> usize
        ensures { result ≡ fault_place self }
    {
        match self {
            Fault::Text(fault) => fault.place(),
            Fault::Form(FormFault::Misfit { at } | FormFault::OutOfRange { at }) => at,
            Fault::Names(NamesFault::Misnamed { at } | NamesFault::OverLimit { at }) => at,
            Fault::Message(MessageFault::InScript { at, .. }) => at,
            Fault::Message(MessageFault::InPost { .. }) => 0,
            Fault::Memory => 0,
        }
    }
}

// No derive makes a conversion whose contract names the variant, so each is written.
impl From<TextFault> for Fault {
    ghost from_gives = { λ f r. r ≡ Text f };

    fn from(fault: TextFault) -> Fault {
        Fault::Text(fault)
    }
}

impl From<ParseFault> for Fault {
    ghost from_gives = { λ f r. r ≡ as_fault f };

    fn from(fault: ParseFault) -> Fault {
        match fault {
            ParseFault::Misfit { at } => Fault::Form(FormFault::Misfit { at }),
            ParseFault::Memory => Fault::Memory,
        }
    }
}

impl From<FormFault> for Fault {
    ghost from_gives = { λ f r. r ≡ Form f };

    fn from(fault: FormFault) -> Fault {
        Fault::Form(fault)
    }
}

impl From<NamesFault> for Fault {
    ghost from_gives = { λ f r. r ≡ Names f };

    fn from(fault: NamesFault) -> Fault {
        Fault::Names(fault)
    }
}

impl From<MessageFault> for Fault {
    ghost from_gives = { λ f r. r ≡ Message f };

    fn from(fault: MessageFault) -> Fault {
        Fault::Message(fault)
    }
}

impl From<AllocError> for Fault {
    ghost from_gives = { λ _ r. r ≡ Memory };

    fn from(_e: AllocError) -> Fault {
        Fault::Memory
    }
}
