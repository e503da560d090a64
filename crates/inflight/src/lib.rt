// The messages in flight after a schedule: the bytes of a schedule in, a line for each message out. The tables are made here, so a caller lends only the bytes and an
// output for the text.
#![tactic(auto)]

ghost use Rattle.std.specs.Prelude.{◌≡◌, ◌*◌, ◌≤◌, is_ok, length, take};
ghost use Rattle.text.specs.Paged.{Room, Adds};
ghost use Rattle.schedule.specs.Opening.{opens, run_reply};
ghost use Rattle.schedule.specs.Turns.{replied_by};
ghost use Rattle.buffer.specs.Printing.{printed, print_reply, print_left, Fronts};
ghost use Rattle.inflight.specs.Flight.{message_lines, messages_left, in_flight};

use schedule::{Ran, run};
use tables::Row;
use text::page::Page;
use text::refused::put_refusal;
use words::Message;
use words::limits::{MESSAGE_PLACES, ROW_PLACES};
use words::refusal::Refusal;

mod lines;

// No text is longer.
pub const LONGEST_TEXT: usize = 73728;

// The lines of the messages.
fn put_messages(page: &mut Page<'_>, messages: &[Message])
    requires { Room (144 * length messages.now) page.old }
    ensures { Adds (message_lines messages.now) (144 * length messages.now) page.old page.new }
{
    for message in messages {
        lines::put_message_line(page, message);
    }
}

// The run of a file over a table of messages; the history is needed no longer than the run.
fn run_messages(messages: &mut [Message], bytes: &[u8]) -> Result<Ran, Refusal>
    ensures reply { (replied_by result ≡ run_reply (length messages.old) 1024 bytes.now) × (messages.new ≡ messages_left bytes.now messages.old) }
    ensures opens { is_ok result ≡ opens (length messages.old) 1024 bytes.now }
{
    let mut rows = [Row::default(); ROW_PLACES];
    run(messages, &mut rows, bytes)
}

// The text.
fn put_flight(page: &mut Page<'_>, bytes: &[u8])
    requires { Room 73728 page.old }
    ensures { Adds (in_flight bytes.now) 73728 page.old page.new }
{
    let mut messages = [Message::default(); MESSAGE_PLACES];
    match run_messages(&mut messages, bytes) {
        Ok(ran) => put_messages(page, &messages[..ran.bench.flight as usize]),
        Err(refusal) => put_refusal(page, refusal),
    }
}

// The messages in flight after the schedule, one a line, at the front of a lent output. An output of fewer than 73,728 bytes is refused by 19 and left as it was.
pub fn flight(bytes: &[u8], out: &mut [u8]) -> Result<usize, Refusal>
    ensures value { (printed result ≡ print_reply 73728 (in_flight bytes.now) (length out.old)) × (out.new ≡ print_left 73728 (in_flight bytes.now) out.old) }
    ensures fronts { Fronts (printed result).size out.new }
{
    if out.len() < LONGEST_TEXT {
        return Err(Refusal::ShortOutput);
    }
    let mut page = Page {
        bytes: out,
        used: 0,
    };
    put_flight(&mut page, bytes);
    Ok(page.used)
}
