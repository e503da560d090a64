// The program: a schedule from standard input, its replay to standard output.
#![tactic(auto)]

use format::file::LONGEST;
use replaying::LONGEST_TEXT;
use std::io;

const USAGE: &str =
    "replay < FILE\nReplays the schedule in FILE and prints it. The numbers of refusal are in README.md.";

fn main(rt: HostRuntime) -> io::Result<()> {
    let mut bytes = [0u8; LONGEST + 1];
    let mut text = [0u8; LONGEST_TEXT];
    input::run(&rt, USAGE, &mut bytes, |schedule| {
        let written = replaying::replay(schedule, &mut text).unwrap();
        input::say(&rt, "replay: the text", &text[..written])
    })
}
