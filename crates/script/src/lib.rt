// The text of a schedule, read: lines, words and numbers, and the file that the text stands for.
#![tactic(auto)]

mod fields;
mod heads;
pub mod marks;
pub mod meaning;
mod numbers;

use state::Event;

// What is wrong with a line.
#[derive(Clone, Copy, Debug, PartialEq, Eq)]
pub enum Fault {
    Unknown,
    Missing,
    TooMany,
    NotANumber,
    TooLarge,
    NoBench,
    Processes,
    Registers,
    TooLong,
}

// What a line says.
#[derive(Clone, Copy)]
pub enum Line {
    Blank,
    Bench(u8, u8),
    Does(Event),
}

// What the first word of a line is.
#[derive(Clone, Copy, Debug, PartialEq, Eq)]
pub enum Head {
    Bench,
    Read,
    Write,
    Deliver,
    Crash,
    Lose,
}
