// How a verdict is printed.
use crate::Kind;
use crate::verdict::Counts;
use excerpt::{Excerpt, excerpt_at, shown};
use script::fault::{Fault, FormFault, MessageFault, NamesFault};
use std::{fmt, io};
use tokens::text::TextFault;

impl fmt::Display for Counts {
    fn fmt<W: fmt::Write>(&self, f: &mut fmt::Formatter<W>) -> fmt::Result {
        let Counts {
            channels,
            mailboxes,
            ivars,
            mvars,
            bodies,
            events,
        } = *self;
        write!(
            f,
            "channels {channels}, mailboxes {mailboxes}, ivars {ivars}, mvars {mvars}, bodies {bodies}, events {events}"
        )
    }
}

// A place with its line and a caret under its byte.
#[derive(Drop)]
struct Shown<'a>(Excerpt<'a>);

impl fmt::Display for Shown<'_> {
    fn fmt<W: fmt::Write>(&self, f: &mut fmt::Formatter<W>) -> fmt::Result {
        let line = self.0.line.saturating_add(1);
        let column = self.0.column.saturating_add(1);
        writeln!(f, "line {line}, column {column}:")?;
        f.write_str(if self.0.is_cut_before { "  ..." } else { "  " })?;
        for b in self.0.bytes {
            f.write_char(shown(*b))?;
        }
        f.write_str(if self.0.is_cut_after { "...\n" } else { "\n" })?;
        f.write_str(if self.0.is_cut_before { "     " } else { "  " })?;
        f.write_repeated(" ", self.0.caret)?;
        f.write_str("^")
    }
}

// What is said of a fault is this program's choice, so it stands here and not in a Display beside it;
// a wrapper with a Display would hold the same two matches.
fn layer(fault: Fault) -> &'static str {
    match fault {
        Fault::Text(_) => "text",
        Fault::Form(_) => "form",
        Fault::Names(_) => "names",
        Fault::Message(_) => "message",
        Fault::Memory => "memory",
    }
}

fn reason(fault: Fault) -> &'static str {
    match fault {
        Fault::Text(fault) => match fault {
            TextFault::TooLong => "longer than 16384 bytes",
            TextFault::ForeignByte { .. } => "neither printable ASCII nor a separator",
            TextFault::TooDeep { .. } => "an opening bracket inside 24 open ones",
        },
        Fault::Form(fault) => match fault {
            FormFault::Misfit { .. } => "no script goes on like this",
            FormFault::OutOfRange { .. } => "a number out of its range",
        },
        Fault::Names(fault) => match fault {
            NamesFault::Misnamed { .. } => "declared again, or not declared",
            NamesFault::OverLimit { .. } => "one over the limit",
        },
        Fault::Message(_) => "not the literal of a message",
        Fault::Memory => "no memory to check it",
    }
}

fn print_inner(rt: &impl Print, fault: Fault) -> io::Result<()> {
    match fault {
        Fault::Message(MessageFault::InScript { fault, .. }) => {
            let at = fault.at;
            println!(rt; "its first {at} bytes begin one")
        }
        _ => Ok(()),
    }
}

pub fn print_verdict(
    rt: &impl Print,
    kind: Kind,
    text: &[u8],
    verdict: Result<Counts, Fault>,
) -> io::Result<()> {
    match verdict {
        Ok(counts) => println!(rt; "accepted for {kind}: {counts}"),
        Err(fault) => {
            let number = fault.number();
            let place = fault.place();
            let layer = layer(fault);
            let reason = reason(fault);
            println!(rt; "refused {number} ({layer}) at byte {place}: {reason}")?;
            print_inner(rt, fault)?;
            rt.println(Shown(excerpt_at(text, place)))
        }
    }
}
