// A whole replay: the bytes of a schedule in, its text out. The tables are made here, so a caller lends only the bytes and a buffer for the text.
#![tactic(auto)]

ghost use Rattle.std.specs.Prelude.{◌≡◌, ◌≤◌, is_ok, leb, length, IfErr};
ghost use Rattle.words.specs.declared.refusal.Refusal.TheVariants.{ShortOutput};
ghost use Rattle.text.specs.Written.{Wrote};
ghost use Rattle.schedule.specs.Opening.{opens, run_reply};
ghost use Rattle.schedule.specs.Turns.{replied_by};
ghost use Rattle.replaying.specs.Replayed.{rows_left, replayed, replay_reply, replay_left, written, Fronts};

use order::fill_order;
use report::put_report;
use schedule::{Ran, run};
use tables::Row;
use text::refused::refusal_text;
use words::Message;
use words::limits::{MESSAGE_PLACES, ROW_PLACES};
use words::refusal::Refusal;

// No text is longer.
pub const LONGEST_TEXT: usize = 81563;

// The run of a file over a history; the table of messages is needed no longer than the run.
pub fn run_history(rows: &mut [Row], bytes: &[u8]) -> Result<Ran, Refusal>
    ensures reply { (replied_by result ≡ run_reply 512 (length rows.old) bytes.now) × (rows.new ≡ rows_left bytes.now rows.old) }
    ensures opens { is_ok result ≡ opens 512 (length rows.old) bytes.now }
{
    let mut messages = [Message::default(); MESSAGE_PLACES];
    run(&mut messages, rows, bytes)
}

// The text, at the front of the buffer.
fn replay_into(out: &mut [u8], listing: &mut [u16], bytes: &[u8]) -> usize
    requires { (81563 ≤ length out.old) × (length listing.old ≡ 1024) }
    ensures { Wrote 0 (replayed bytes.now) 81563 out.old out.new result }
{
    let mut rows = [Row::default(); ROW_PLACES];
    match run_history(&mut rows, bytes) {
        Ok(ran) => {
            let count = fill_order(&rows, ran.bench.rows, listing);
            put_report(
                out,
                &ran.bench,
                ran.stopped,
                &rows,
                &listing[..count as usize],
            )
        }
        Err(refusal) => refusal_text(out, refusal),
    }
}

// The text of a replay, laid at the front of a lent buffer; how long it is. A buffer of fewer than 81,563 bytes is left as it was.
pub fn replay(bytes: &[u8], out: &mut [u8]) -> Result<usize, Refusal>
    ensures value { (written result ≡ replay_reply bytes.now out.old) × (out.new ≡ replay_left bytes.now out.old) }
    ensures room { is_ok result ≡ leb 81563 (length out.old) }
    ensures short { IfErr result (λ e. e ≡ ShortOutput) }
    ensures fronts { Fronts (written result) out.new }
{
    if out.len() < LONGEST_TEXT {
        return Err(Refusal::ShortOutput);
    }
    let mut listing = [0u16; ROW_PLACES];
    Ok(replay_into(out, &mut listing, bytes))
}
