// What is said of a script.
use grammar::form::parse;
use grammar::words::{Keyword, PortKind, Use};
use message::kind::Message;
use rows::row::Rows;
use script::check::{Text, check};
use script::checked::Checked;
use script::fault::Fault;
use std::alloc::Global;

// An accepted script, in numbers.
#[derive(Clone, Copy)]
pub struct Counts {
    pub channels: usize,
    pub mailboxes: usize,
    pub ivars: usize,
    pub mvars: usize,
    pub bodies: usize,
    pub events: usize,
}

fn is_event(purpose: Use) -> bool {
    matches!(
        purpose,
        Use::Head(
            Keyword::Never
                | Keyword::Always
                | Keyword::Send
                | Keyword::Recv
                | Keyword::Timeout
                | Keyword::Nack
                | Keyword::Choose
                | Keyword::Wrap
                | Keyword::Guard
                | Keyword::WithNack
        )
    )
}

fn count_events(heap: Global, text: &[u8]) -> Result<usize, Fault> {
    let parts = parse(heap, text)?;
    Ok(parts.iter().filter(|part| is_event(part.purpose)).count())
}

fn count_ports<M: Message>(rows: &Rows<M>, kind: PortKind) -> usize {
    (0..16).filter(|p| rows.port(*p) == Some(kind)).count()
}

fn count_bodies<M: Message>(rows: &Rows<M>) -> usize {
    (0..32).filter(|b| rows.body(*b).is_some()).count()
}

// Checks the script, and counts what is in an accepted one.
pub fn judge<M: Message>(heap: Global, text: &[u8]) -> Result<Counts, Fault> {
    let mut table: Checked<M> = Checked::new(heap);
    check(heap, Text::new(text), &mut table)?;
    let rows = table.rows();
    let channels = count_ports(rows, PortKind::Channel);
    let mailboxes = count_ports(rows, PortKind::Mailbox);
    let ivars = count_ports(rows, PortKind::Ivar);
    let mvars = count_ports(rows, PortKind::Mvar);
    let bodies = count_bodies(rows);
    // The rows are let go before the parts are made again.
    drop(table);
    let events = count_events(heap, text)?;
    Ok(Counts {
        channels,
        mailboxes,
        ivars,
        mvars,
        bodies,
        events,
    })
}
