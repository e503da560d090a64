// The text of a schedule file: its bytes in, a line for each event out, into a lent output.
#![tactic(auto)]

ghost use Rattle.std.specs.Prelude.{◌≡◌, ◌+◌, ◌-◌, ◌*◌, ◌≤◌, length};
ghost use Rattle.text.specs.Paged.{Room, Adds};
ghost use Rattle.format.specs.Format.{file_refusal};
ghost use Rattle.buffer.specs.Printing.{printed, print_reply, print_left, Fronts};
ghost use Rattle.writing.specs.Reading.{read_out};
ghost use Rattle.showing.specs.Shown.{reading_text, shown};

use format::events::event_at;
use format::file::{HEAD, M_AT, N_AT, file_refusal};
use text::page::Page;
use text::refused::put_refusal;
use words::refusal::Refusal;

mod lines;

// No text is longer: a file has at most 65,536 bytes, and each gives at most 6.
pub const LONGEST_TEXT: usize = 393216;

// The lines of the events, read to the end, or to bytes that are no event.
fn put_reading(page: &mut Page<'_>, bytes: &[u8])
    requires in_bounds { (7 ≤ length bytes.now) × (page.old.used + 14 ≤ 42) }
    requires bytes_in_bounds { (page.old.used ≤ length page.old.bytes.now) × (6 * length bytes.now ≤ length page.old.bytes.now) }
    ensures { Adds (reading_text (read_out bytes.now)) (6 * length bytes.now - page.old.used) page.old page.new }
{
    // A loop: how far an event reaches is known only once it is read.
    let mut place = HEAD;
    loop {
        match event_at(bytes, place) {
            Ok(Some((event, behind))) => {
                lines::put_event_line(page, event);
                place = behind;
            }
            Ok(None) => return,
            Err(refusal) => return put_refusal(page, refusal),
        }
    }
}

// The text, on an empty page.
fn put_shown(page: &mut Page<'_>, bytes: &[u8])
    requires { (page.old.used ≡ 0) × Room 393216 page.old }
    ensures { Adds (shown bytes.now) 393216 page.old page.new }
{
    match file_refusal(bytes) {
        Ok(()) => {
            lines::put_bench_line(page, bytes[N_AT], bytes[M_AT]);
            put_reading(page, bytes);
        }
        Err(refusal) => put_refusal(page, refusal),
    }
}

// The text of a schedule file, at the front of a lent output. An output of fewer than 393,216 bytes is refused by 19 and left as it was.
pub fn show(bytes: &[u8], out: &mut [u8]) -> Result<usize, Refusal>
    ensures value { (printed result ≡ print_reply 393216 (shown bytes.now) (length out.old)) × (out.new ≡ print_left 393216 (shown bytes.now) out.old) }
    ensures fronts { Fronts (printed result).size out.new }
{
    if out.len() < LONGEST_TEXT {
        return Err(Refusal::ShortOutput);
    }
    let mut page = Page {
        bytes: out,
        used: 0,
    };
    put_shown(&mut page, bytes);
    Ok(page.used)
}
