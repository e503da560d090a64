// The program: a schedule from standard input; to standard output its rows and its one order, as a history file.
#![tactic(auto)]

use format::file::LONGEST;
use recording::LONGEST_FILE;
use std::io;

const USAGE: &str =
    "history < FILE\nWrites the history file of the schedule in FILE. The form is in docs/JUDGING.md.";

fn main(rt: HostRuntime) -> io::Result<()> {
    let mut bytes = [0u8; LONGEST + 1];
    let mut file = [0u8; LONGEST_FILE];
    input::run(&rt, USAGE, &mut bytes, |schedule| {
        let written = recording::history(schedule, &mut file).unwrap();
        input::say(&rt, "history: the file", &file[..written])
    })
}
