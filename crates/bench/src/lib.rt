// The public functions of the bench. Each is total: it has no `requires`, and its contract says what it gives for every input, refused ones too.
#![tactic(auto)]

ghost use Rattle.std.specs.Prelude.{◌≡◌, cond, length, replicate};
ghost use Rattle.words.specs.Refusals.{refusal_number};
ghost use Rattle.tables.specs.Tables.{empty_message, empty_row};
ghost use Rattle.state.specs.State.{view};
ghost use Rattle.state.specs.Stepped.{stepped};
ghost use Rattle.state.specs.Tabled.{tabled};
ghost use Rattle.standing.specs.Status.{statuses, downs, told};
ghost use Rattle.bench.specs.Start.{start_refusal, starts, start_reply, started};
ghost use Rattle.bench.specs.Listing.{list_reply, list_left, listing};
ghost use Rattle.bench.specs.Reply.{step_reply, step_messages, step_rows};

use advance::advance;
use judge::is_tabled;
use order::fill_order;
use standing::{Status, standings_of};
use state::{Bench, Event};
use tables::Row;
use words::Message;
use words::limits::{MESSAGE_PLACES, PROCESSES, REGISTERS, ROW_PLACES};
use words::ranges::is_within;
use words::refusal::Refusal;

pub mod fresh;

// The first check that refuses a start.
fn check_start(n: u8, m: u8, messages: usize, rows: usize) -> Result<(), Refusal>
    ensures { refusal_number result ≡ start_refusal n m messages rows }
{
    if (messages != MESSAGE_PLACES) | (rows != ROW_PLACES) {
        return Err(Refusal::NotFormed);
    }
    if !is_within(n, PROCESSES) {
        return Err(Refusal::NoProcesses);
    }
    if !is_within(m, REGISTERS) {
        return Err(Refusal::NoRegisters);
    }
    Ok(())
}

// A bench of n processes and m registers, over two lent tables.
pub fn start(n: u8, m: u8, messages: &mut [Message], rows: &mut [Row]) -> Result<Bench, Refusal>
    ensures { (started result ≡ start_reply n m (length messages.old) (length rows.old))
        × ((messages.new ≡ cond (starts n m (length messages.old) (length rows.old)) (replicate 512 empty_message) messages.old)
        × (rows.new ≡ cond (starts n m (length messages.old) (length rows.old)) (replicate 1024 empty_row) rows.old)) }
{
    check_start(n, m, messages.len(), rows.len())?;
    messages.fill(Message::default());
    rows.fill(Row::default());
    Ok(fresh::fresh_bench(n, m))
}

// What each process is doing.
pub fn status(b: Bench, messages: &[Message], rows: &[Row]) -> Result<[Status; 7], Refusal>
    ensures { told result ≡ cond (tabled b messages.now rows.now) (statuses (view b messages.now rows.now)) (downs 18) }
{
    if is_tabled(b, messages, rows) {
        Ok(standings_of(b))
    } else {
        Err(Refusal::NotFormed)
    }
}

// One event. A refused one changes nothing.
pub fn step(
    b: Bench,
    event: Event,
    messages: &mut [Message],
    rows: &mut [Row],
) -> Result<Bench, Refusal>
    ensures { (stepped b result ≡ step_reply b event messages.old rows.old)
        × ((messages.new ≡ step_messages b event messages.old rows.old)
        × (rows.new ≡ step_rows b event messages.old rows.old)) }
{
    if !is_tabled(b, messages, rows) {
        return Err(Refusal::NotFormed);
    }
    advance(messages, rows, b, event)
}

// The one order of the history, as row numbers, laid into a lent table of 1,024 places, with zeros behind it; how many were laid.
pub fn order(b: Bench, messages: &[Message], rows: &[Row], out: &mut [u16]) -> Result<u16, Refusal>
    ensures { (listing result ≡ list_reply b messages.now rows.now out.old)
        × (out.new ≡ list_left b messages.now rows.now out.old) }
{
    if is_tabled(b, messages, rows) & (out.len() == ROW_PLACES) {
        return Ok(fill_order(rows, b.rows, out));
    }
    Err(Refusal::NotFormed)
}
