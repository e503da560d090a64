// For the benchmark in bench/: a schedule from standard input, replayed as many times as the first argument says, its text written once.
#![tactic(auto)]

use format::file::LONGEST;
use replaying::LONGEST_TEXT;
use std::env::Env;
use std::io;

// The number that the digits in a word make; a byte that is no digit does not count.
fn number(word: &[u8]) -> u64 {
    word.iter()
        .filter_map(|byte| char::from(*byte).to_digit(10))
        .fold(0, |number: u64, digit| {
            number.saturating_mul(10).saturating_add(u64::from(digit))
        })
}

fn main(rt: HostRuntime) -> io::Result<()> {
    let mut word = [0u8; 6];
    let mut bytes = [0u8; LONGEST + 1];
    let mut text = [0u8; LONGEST_TEXT];
    // With no argument the word stays empty, and of a longer one it has the front.
    let _ = rt.arg(1, &mut word);
    let read = input::read_full(&mut rt.stdin(), &mut bytes)?;
    // All replays but the last.
    for _ in 1..number(&word) {
        let _ = replaying::replay(&bytes[..read], &mut text);
    }
    let written = replaying::replay(&bytes[..read], &mut text).unwrap();
    rt.write_all(&text[..written])
}
