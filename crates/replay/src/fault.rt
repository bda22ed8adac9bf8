ghost use Rattle.std.specs.Prelude.{◌≡◌};
ghost use Rattle.replay.specs.declared.fault.CallFault.TheVariants.{Message, Run};
ghost use Rattle.replay.specs.Faults.{run_number, call_number};

use script::fault::MessageFault;

// A call on a run was sent away for what the run is.
#[derive(Clone, Copy, Debug, PartialEq, Eq)]
pub enum RunFault {
    // Fewer cells than the run needs.
    FewCells,
    // A page in which the lines of a call might not fit.
    ShortPage,
    // The trace is as long as it may get.
    LongTrace,
    // The port is not a declared mailbox.
    NotMailbox,
    // A give at that mailbox would not be open by itself.
    NoRoom,
    // The clock would go back.
    ClockBack,
    // No task is able.
    Quiet,
}

impl RunFault {
    pub fn number(self) -> u32
        ensures { result ≡ run_number self }
    {
        match self {
            RunFault::FewCells => 9,
            RunFault::ShortPage => 10,
            RunFault::LongTrace => 11,
            RunFault::NotMailbox => 12,
            RunFault::NoRoom => 14,
            RunFault::ClockBack => 15,
            RunFault::Quiet => 16,
        }
    }
}

// Why a call on a run was sent away, by the layer that found it.
#[derive(Clone, Copy, Debug, PartialEq, Eq)]
pub enum CallFault {
    Message(MessageFault),
    Run(RunFault),
}

impl CallFault {
    pub fn number(self) -> u32
        ensures { result ≡ call_number self }
    {
        match self {
            CallFault::Message(MessageFault::InScript { .. }) => 8,
            CallFault::Message(MessageFault::InPost { .. }) => 13,
            CallFault::Run(fault) => fault.number(),
        }
    }
}

// No derive makes a conversion whose contract names the variant, so each is written.
impl From<MessageFault> for CallFault {
    ghost from_gives = { λ f r. r ≡ Message f };

    fn from(fault: MessageFault) -> CallFault {
        CallFault::Message(fault)
    }
}

impl From<RunFault> for CallFault {
    ghost from_gives = { λ f r. r ≡ Run f };

    fn from(fault: RunFault) -> CallFault {
        CallFault::Run(fault)
    }
}
