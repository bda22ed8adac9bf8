#![tactic(auto)]

// Reads lines of a trace over weights, and prints the kind of each, or the number of the refusal.
use message::weight::Weight;
use std::io;
use std::io::{BufRead, BufReader};
use trace::line::read_line;

// Nothing says that an input ends, so the lines are counted.
const MOST_LINES: u32 = 1_000_000;

fn print_verdict(rt: &impl Print, line: &[u8]) -> io::Result<()> {
    match read_line::<Weight>(line) {
        Ok(record) => rt.println(record.event.kind()),
        Err(refusal) => rt.println(refusal.number()),
    }
}

fn run(rt: &HostRuntime) -> io::Result<()> {
    let mut input = BufReader::new(rt.alloc(), rt.stdin())?;
    let mut line = Vec::new(rt.alloc());
    for _ in 0..MOST_LINES {
        line.clear();
        if input.read_until(b'\n', &mut line)? == 0 {
            break;
        }
        print_verdict(rt, line.as_slice())?;
    }
    Ok(())
}

fn main(rt: HostRuntime) {
    // Where nothing can be read or printed there is nobody to tell.
    let _ = run(&rt);
}
