// The schedule file, from N, M and a lent list of events to bytes in a lent output.
#![tactic(auto)]

ghost use Rattle.std.specs.Prelude.{◌≡◌, ◌+◌, length};
ghost use Rattle.text.specs.Paged.{Room, Adds};
ghost use Rattle.writing.specs.Bytes.{events_bytes};
ghost use Rattle.writing.specs.Writing.{filed_as, write_reply, write_left};

use format::file::HEAD;
use state::Event;
use text::page::Page;
use words::refusal::Refusal;

pub mod events;
pub mod file;
mod numbers;

// How many bytes the file of these events has.
pub fn file_size(events: &[Event]) -> usize
    ensures { result ≡ 7 + length (events_bytes events.now) }
{
    let mut size = HEAD;
    for event in events {
        size += events::size_of(*event);
    }
    size
}

// The events, one after another.
fn put_events(page: &mut Page<'_>, events: &[Event])
    requires { Room (length (events_bytes events.now)) page.old }
    ensures { Adds (events_bytes events.now) (length (events_bytes events.now)) page.old page.new }
{
    for event in events {
        events::put_event(page, *event);
    }
}

// The file, at the front of the output, and how many bytes it has. Refused by 4, 5, 1 or 19, in this order, nothing is written.
pub fn write(out: &mut [u8], events: &[Event], n: u8, m: u8) -> Result<usize, Refusal>
    ensures { (filed_as result ≡ write_reply n m events.now (length out.old)) × (out.new ≡ write_left n m events.now out.old) }
{
    let size = file_size(events);
    file::may_write(n, m, size, out.len())?;
    let mut page = Page {
        bytes: out,
        used: 0,
    };
    file::put_head(&mut page, n, m, size);
    put_events(&mut page, events);
    Ok(size)
}
