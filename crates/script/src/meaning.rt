// What a line says.
ghost use Rattle.std.specs.Prelude.{◌≡◌};
ghost use Rattle.script.specs.Lines.{words};
ghost use Rattle.script.specs.Meaning.{fields_of, meaning, line_of};
ghost use Rattle.script.specs.Places.{Reads};

use crate::marks::{Words, cut};
use crate::{Fault, Head, Line};
use state::Event;
use words::Pid;

// What starts a comment.
const HASH: u8 = b'#';

// What the words behind the first say; nothing may follow those that are taken.
fn fields_of(head: Head, fields: &mut Words<'_>) -> Result<Line, Fault>
    ensures { Reads (fields_of head (words fields.old.rest.now)) (words fields.new.rest.now) result }
{
    match head {
        Head::Bench => {
            let (n, m) = fields.two_bytes()?;
            Ok(Line::Bench(n, m))
        }
        Head::Read => {
            let (p, x) = fields.two_bytes()?;
            Ok(Line::Does(Event::Read(Pid(p), x)))
        }
        Head::Write => {
            let (p, x) = fields.two_bytes()?;
            let v = fields.value()?;
            Ok(Line::Does(Event::Write(Pid(p), x, v)))
        }
        Head::Deliver => Ok(Line::Does(Event::Deliver(fields.word()?))),
        Head::Crash => Ok(Line::Does(Event::Crash(Pid(fields.byte()?)))),
        Head::Lose => Ok(Line::Does(Event::Lose(fields.word()?))),
    }
}

// A line without its comment.
fn plain_line(line: &[u8]) -> Result<Line, Fault>
    ensures { result ≡ meaning (words line.now) }
{
    let mut words = Words { rest: line };
    let Some(first) = words.next() else {
        return Ok(Line::Blank);
    };
    let says = fields_of(Head::try_from(first)?, &mut words)?;
    if words.next().is_some() {
        return Err(Fault::TooMany);
    }
    Ok(says)
}

// Inlined, as each line is gone over twice: what a line says is else laid in memory and taken up again.
#[inline(always)]
pub fn line_of(line: &[u8]) -> Result<Line, Fault>
    ensures { result ≡ line_of line.now }
{
    let (plain, _) = cut(line, HASH);
    plain_line(plain)
}
