// The file of a text: the bytes of a text in, the bytes of a schedule file out, into a lent output.
#![tactic(auto)]

ghost use Rattle.std.specs.Prelude.{◌≡◌, true, ◌+◌, ◌≤◌, length};
ghost use Rattle.words.specs.Ranges.{within};
ghost use Rattle.writing.specs.Bytes.{events_bytes};
ghost use Rattle.writing.specs.Writing.{write_left};
ghost use Rattle.script.specs.Lines.{lines};
ghost use Rattle.buffer.specs.Printing.{printed, print_reply, print_left, Fronts};
ghost use Rattle.composing.specs.Complaint.{complaint};
ghost use Rattle.composing.specs.Composed.{compose_reply, compose_left};
ghost use Rattle.composing.specs.Passes.{events_in, filed_as, Fits};

use crate::complaint::put_complaint;
use crate::first::bench_in;
use crate::rest::{put_script, survey};
use script::Fault;
use text::page::Page;
use words::refusal::Refusal;
use writing::file::put_head;

mod complaint;
mod first;
mod rest;

// No complaint is longer.
pub const LONGEST_COMPLAINT: usize = 66;

// Why there is no file: a line that is wrong, or an output that is shorter than the file.
#[derive(Clone, Copy, Debug, PartialEq, Eq)]
pub enum NotComposed {
    Wrong { line: usize, fault: Fault },
    Short,
}

// What the line of the bench says, its number, and the text behind it.
#[derive(Clone, Copy)]
pub struct Opening<'a> {
    pub n: u8,
    pub m: u8,
    pub number: usize,
    pub rest: &'a [u8],
}

// The file of the lines behind the bench, which were surveyed.
fn write_script(out: &mut [u8], opening: Opening<'_>, size: usize) -> Result<usize, NotComposed>
    requires in_range { (within opening.n 7 ≡ true) × (within opening.m 16 ≡ true) }
    requires size_value { (size ≡ 7 + length (events_bytes (events_in (lines opening.rest.now)))) × (size ≤ 65536) }
    ensures { (result ≡ filed_as size (length out.old)) × (out.new ≡ write_left opening.entry.n opening.entry.m (events_in (lines opening.entry.rest.now)) out.old) }
{
    if out.len() < size {
        return Err(NotComposed::Short);
    }
    let mut page = Page {
        bytes: out,
        used: 0,
    };
    put_head(&mut page, opening.n, opening.m, size);
    put_script(&mut page, opening.rest);
    Ok(size)
}

// The file of a text, at the front of a lent output. Where a line is wrong, or the output is shorter than the file, nothing is written.
pub fn compose(text: &[u8], out: &mut [u8]) -> Result<usize, NotComposed>
    ensures value { (result ≡ compose_reply text.now (length out.old)) × (out.new ≡ compose_left text.now out.old) }
    ensures fits { Fits result out.new }
{
    let opening = bench_in(text)?;
    let size = survey(opening.rest, opening.number + 1)?;
    write_script(out, opening, size)
}

// What is said of a line that is wrong, at the front of a lent output. An output of fewer than 66 bytes is refused by 19 and left as it was.
pub fn complain(line: usize, fault: Fault, out: &mut [u8]) -> Result<usize, Refusal>
    ensures value { (printed result ≡ print_reply 66 (complaint line fault) (length out.old)) × (out.new ≡ print_left 66 (complaint line fault) out.old) }
    ensures fronts { Fronts (printed result).size out.new }
{
    if out.len() < LONGEST_COMPLAINT {
        return Err(Refusal::ShortOutput);
    }
    let mut page = Page {
        bytes: out,
        used: 0,
    };
    put_complaint(&mut page, line, fault);
    Ok(page.used)
}
