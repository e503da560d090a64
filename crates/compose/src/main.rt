// The program: a text from standard input, the schedule file that it stands for to standard output. Text that is none is answered on standard error.
#![tactic(auto)]

use composing::{LONGEST_COMPLAINT, NotComposed};
use format::file::LONGEST;
use script::Fault;
use std::io;

// The longest text that is read.
const LONGEST_TEXT: usize = 393216;

const USAGE: &str =
    "compose < TEXT > FILE\nMakes the schedule file of a text: bench N M, then read P X, write P X V, deliver K, crash P, lose K, a line each.";

fn complain(rt: &HostRuntime, line: usize, fault: Fault) -> io::Result<()> {
    let mut note = [0u8; LONGEST_COMPLAINT];
    match composing::complain(line, fault, &mut note) {
        Ok(size) => rt.stderr().write_all(&note[..size]),
        Err(_) => Ok(()),
    }
}

fn main(rt: HostRuntime) -> io::Result<()> {
    // One byte more than the longest text has, so that a longer one is told and not cut.
    let mut text = [0u8; LONGEST_TEXT + 1];
    let mut file = [0u8; LONGEST];
    input::run(&rt, USAGE, &mut text, |text| {
        if LONGEST_TEXT < text.len() {
            return eprintln!(rt; "the text has more than 393,216 bytes");
        }
        match composing::compose(text, &mut file) {
            Ok(size) => rt.write_all(&file[..size]),
            Err(NotComposed::Wrong { line, fault }) => complain(&rt, line, fault),
            Err(NotComposed::Short) => Ok(()),
        }
    })
}
