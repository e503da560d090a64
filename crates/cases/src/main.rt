// Small schedules that are built in, each replayed: P12, and things that are no schedule.
#![tactic(auto)]

use replaying::LONGEST_TEXT;
use std::io;

fn show(rt: &impl Print, bytes: &[u8]) -> io::Result<()> {
    let mut text = [0u8; LONGEST_TEXT];
    let written = replaying::replay(bytes, &mut text).unwrap();
    rt.write_all(&text[..written])
}

fn main(rt: HostRuntime) -> io::Result<()> {
    // P12: one process, one register, no event.
    show(&rt, &[0, 0, 0, 3, 1, 1, 1])?;
    // Six bytes, a text, version 2, N = 8, M = 0.
    show(&rt, &[0, 0, 0, 2, 1, 1])?;
    show(&rt, b"not a schedule\n")?;
    show(&rt, &[0, 0, 0, 3, 2, 1, 1])?;
    show(&rt, &[0, 0, 0, 3, 1, 8, 1])?;
    show(&rt, &[0, 0, 0, 3, 1, 1, 0])
}
