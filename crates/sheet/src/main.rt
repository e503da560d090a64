// The program: one sheet over the schedules in the files that its arguments name, read one after another.
#![tactic(auto)]

use figures::Sheet;
use figures::totals::Overflow;
use format::file::LONGEST;
use sheet_text::LONGEST_TEXT;
use std::env::Env;
use std::fs::File;
use std::{fs, io, str};

// A thousand replays take long enough to ask how far it is.
const FILES_A_LINE: usize = 1000;

// One byte more than the longest schedule has, so that a longer one is refused and not cut.
const BYTES: usize = LONGEST + 1;

// Says what failed, in the system's words: std's have a number behind them.
fn fail(rt: &HostRuntime, what: &[u8], error: io::Error) -> io::Result<()> {
    let text = format!(in rt.alloc(); "{error}")?;
    let words = text.as_str().split(" (os error ").next().unwrap_or("");
    rt.stderr().write_all(what)?;
    eprintln!(rt; ": {words}")
}

fn refused(rt: &HostRuntime, name: &[u8], overflow: Overflow) -> io::Result<()> {
    rt.stderr().write_all(name)?;
    eprintln!(rt; ": {overflow}")
}

// The schedule in an open file. A folder can be opened and not read. Where standard error can't be written, the sheet goes on all the same.
fn add_open(rt: &HostRuntime, sheet: Sheet, mut file: File, name: &[u8]) -> io::Result<Sheet> {
    let mut bytes = [0u8; BYTES];
    let read = input::read_full(&mut file, &mut bytes)?;
    match sheets::add(sheet, &bytes[..read]) {
        Ok(next) => Ok(next),
        Err(overflow) => {
            let _ = refused(rt, name, overflow);
            Ok(sheet)
        }
    }
}

// std opens no file whose name is not UTF-8.
fn open(rt: &HostRuntime, name: &[u8]) -> io::Result<File> {
    match str::from_utf8(name) {
        Ok(path) => fs::open(rt, path),
        Err(_) => Err(io::Error::from(io::ErrorKind::InvalidFilename)),
    }
}

// The sheet with the schedule in the file that an argument names, if the file can be read.
fn add_named(rt: &HostRuntime, sheet: Sheet, i: usize) -> Option<Sheet> {
    let mut name = [0u8; 4096];
    let length = rt.arg(i, &mut name).unwrap_or(0);
    let name = &name[..length];
    match open(rt, name).and_then(|file| add_open(rt, sheet, file, name)) {
        Ok(next) => Some(next),
        Err(error) => {
            let _ = fail(rt, name, error);
            None
        }
    }
}

// Over many files a line now and then says how far it is.
fn tell(rt: &impl Eprint, done: usize, all: usize) {
    if done % FILES_A_LINE == 0 {
        let _ = eprintln!(rt; "{done} of {all} files");
    }
}

// Adds the schedules in all files to a sheet, and gives how many files could not be read. Argument 0 is the program.
fn add_all(rt: &HostRuntime, sheet: &mut Sheet, arguments: usize) -> usize {
    let mut unread = 0;
    for i in 1..arguments {
        match add_named(rt, *sheet, i) {
            Some(next) => *sheet = next,
            None => unread += 1,
        }
        tell(rt, i, arguments - 1);
    }
    unread
}

fn main(rt: HostRuntime) -> io::Result<()> {
    let mut sheet = Sheet::default();
    let unread = add_all(&rt, &mut sheet, input::argument_count(&rt));
    let mut text = [0u8; LONGEST_TEXT];
    let written = sheet_text::print(sheet, &mut text).unwrap_or(0);
    let printed = rt.write_all(&text[..written]);
    if unread != 0 {
        let _ = eprintln!(rt; "files not read: {unread}");
    }
    printed
}
