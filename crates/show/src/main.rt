// The program: a schedule from standard input, its text to standard output.
#![tactic(auto)]

use format::file::LONGEST;
use showing::LONGEST_TEXT;
use std::io;

const USAGE: &str =
    "show < FILE\nPrints the schedule in FILE as text, which compose makes the same file of.";

fn print(rt: &HostRuntime, schedule: &[u8], text: &mut [u8]) -> io::Result<()> {
    match showing::show(schedule, text) {
        Ok(size) => rt.write_all(&text[..size]),
        Err(_) => Ok(()),
    }
}

fn main(rt: HostRuntime) -> io::Result<()> {
    let mut bytes = [0u8; LONGEST + 1];
    let mut text = [0u8; LONGEST_TEXT];
    input::run(
        &rt,
        USAGE,
        &mut bytes,
        |schedule| print(&rt, schedule, &mut text),
    )
}
