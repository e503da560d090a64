// The program: a schedule from standard input, the messages in flight after it to standard output.
#![tactic(auto)]

use format::file::LONGEST;
use inflight::LONGEST_TEXT;
use std::io;

const USAGE: &str =
    "flight < FILE\nPrints the messages in flight after the schedule in FILE, one a line.";

fn main(rt: HostRuntime) -> io::Result<()> {
    let mut bytes = [0u8; LONGEST + 1];
    let mut text = [0u8; LONGEST_TEXT];
    input::run(&rt, USAGE, &mut bytes, |schedule| {
        match inflight::flight(schedule, &mut text) {
            Ok(size) => rt.write_all(&text[..size]),
            Err(_) => Ok(()),
        }
    })
}
