// The lines behind the bench: how many bytes they take, and the events themselves.
ghost use Rattle.std.specs.Prelude.{◌≡◌, ◌+◌, ◌≤◌, ◌<◌, ◌^◌, length, IfOk};
ghost use Rattle.text.specs.Paged.{Room, Adds};
ghost use Rattle.writing.specs.Bytes.{events_bytes};
ghost use Rattle.script.specs.Lines.{lines};
ghost use Rattle.script.specs.Meaning.{line_of};
ghost use Rattle.composing.specs.Passes.{surveyed, grown, line_bytes, events_in};
ghost use Rattle.composing.specs.Script.{following};

use crate::NotComposed;
use format::file::{HEAD, LONGEST};
use script::marks::Lines;
use script::meaning::line_of;
use script::{Fault, Line};
use text::page::Page;
use writing::events::{put_event, size_of};

// The size of a file with one line more.
fn grown(size: usize, line: &[u8]) -> Result<usize, Fault>
    requires { size ≤ 65536 }
    ensures value { result ≡ grown size (line_of line.now) }
    ensures short { IfOk result (λ more. more ≤ 65536) }
{
    match line_of(line)? {
        Line::Blank => Ok(size),
        Line::Bench(_, _) => Err(Fault::NoBench),
        Line::Does(event) => {
            let more = size + size_of(event);
            if LONGEST < more {
                return Err(Fault::TooLong);
            }
            Ok(more)
        }
    }
}

// The first of these lines has this number.
pub fn survey(text: &[u8], number: usize) -> Result<usize, NotComposed>
    requires { number + length (lines text.now) < 2 ^ 64 }
    ensures { result ≡ surveyed 7 (following number 7 (lines text.now)) }
{
    let mut size = HEAD;
    // Zipped with their numbers the lines take five instructions more each, and `compose` has a bar (docs/SPEED.md).
    let mut line = number;
    for next in (Lines { rest: text }) {
        match grown(size, next) {
            Ok(more) => size = more,
            Err(fault) => return Err(NotComposed::Wrong { line, fault }),
        }
        line += 1;
    }
    Ok(size)
}

// The event on a line, if it says one.
fn put_line(page: &mut Page<'_>, line: &[u8])
    requires { Room (length (line_bytes (line_of line.now))) page.old }
    ensures { Adds (line_bytes (line_of line.now)) (length (line_bytes (line_of line.now))) page.old page.new }
{
    if let Ok(Line::Does(event)) = line_of(line) {
        put_event(page, event);
    }
}

// The events of these lines, one after another.
pub fn put_script(page: &mut Page<'_>, text: &[u8])
    requires { Room (length (events_bytes (events_in (lines text.now)))) page.old }
    ensures { Adds (events_bytes (events_in (lines text.now))) (length (events_bytes (events_in (lines text.now)))) page.old page.new }
{
    for next in (Lines { rest: text }) {
        put_line(page, next);
    }
}
