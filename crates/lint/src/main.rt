#![tactic(auto)]

mod input;
mod show;
mod verdict;

use message::ticket::Ticket;
use message::weight::Weight;
use show::print_verdict;
use std::io::Read;
use std::{env, fmt, fs, io};
use tokens::text::LONGEST_TEXT;
use verdict::judge;

// One byte more than a script may have tells that it is too long.
const MOST_READ: usize = LONGEST_TEXT + 1;

// The message kind that scripts are checked for.
#[derive(Clone, Copy)]
enum Kind {
    Weights,
    Tickets,
}

impl fmt::Display for Kind {
    fn fmt<W: fmt::Write>(&self, f: &mut fmt::Formatter<W>) -> fmt::Result {
        f.write_str(match self {
            Kind::Weights => "weights",
            Kind::Tickets => "tickets",
        })
    }
}

// The page takes no memory: want of it is told as what the check answers, not as a fault of reading.
fn report<R: Read>(rt: &HostRuntime, kind: Kind, source: &mut R) -> io::Result<()> {
    let mut page = [0; MOST_READ];
    let text = match input::fill(source, &mut page) {
        Ok(n) => &page[..n],
        Err(e) => return println!(rt; "cannot be read: {e}"),
    };
    let verdict = match kind {
        Kind::Weights => judge::<Weight>(rt.alloc(), text),
        Kind::Tickets => judge::<Ticket>(rt.alloc(), text),
    };
    print_verdict(rt, kind, text, verdict)
}

fn report_file(rt: &HostRuntime, kind: Kind, path: &str) -> io::Result<()> {
    println!(rt; "{path}")?;
    match fs::open(rt, path) {
        Ok(mut file) => report(rt, kind, &mut file),
        Err(e) => println!(rt; "cannot be opened: {e}"),
    }
}

// Each argument is a file, or says for which messages the scripts after it are checked.
fn run(rt: &HostRuntime) -> io::Result<()> {
    let args = match env::args(rt) {
        Ok(args) => args,
        Err(e) => return println!(rt; "the arguments cannot be read: {e}"),
    };
    let mut kind = Kind::Weights;
    let mut is_named = false;
    for arg in args.skip(1) {
        match arg.as_str() {
            "--weights" => kind = Kind::Weights,
            "--tickets" => kind = Kind::Tickets,
            path => {
                is_named = true;
                report_file(rt, kind, path)?;
            }
        }
    }
    if is_named {
        Ok(())
    } else {
        report(rt, kind, &mut rt.stdin())
    }
}

fn main(rt: HostRuntime) {
    // Where nothing can be printed there is nobody to tell.
    let _ = run(&rt);
}
