// The program: a history file from standard input; to standard output `accepted`, or `refused` and the number.
#![tactic(auto)]

use std::io;
use text::page::Page;
use text::refused::put_refused;
use verdicts::faults::Fault;

// One byte more than the longest history file has, so that a longer one is refused and not cut.
const BYTES: usize = 14346;

const LONGEST_LINE: usize = 14;

const USAGE: &str =
    "verdict < FILE\nTells whether the order in the history FILE explains it. The form is in docs/JUDGING.md.";

fn say(rt: &HostRuntime, line: &[u8]) -> io::Result<()> {
    input::say(rt, "verdict: the verdict", line)
}

fn refuse(rt: &HostRuntime, fault: Fault) -> io::Result<()> {
    let mut line = [0u8; LONGEST_LINE];
    let mut page = Page {
        bytes: &mut line,
        used: 0,
    };
    put_refused(&mut page, fault.number());
    let end = page.used;
    say(rt, &line[..end])
}

fn main(rt: HostRuntime) -> io::Result<()> {
    let mut bytes = [0u8; BYTES];
    input::run(&rt, USAGE, &mut bytes, |history| {
        match verdicts::verdict(history) {
            Ok(()) => say(&rt, b"accepted\n"),
            Err(fault) => refuse(&rt, fault),
        }
    })
}
