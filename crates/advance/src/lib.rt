// One event carried out on the bench and its two lent tables, with no test of well-formedness: decide, carry.
#![tactic(auto)]

ghost use Rattle.std.specs.Prelude.{◌≡◌, true, ◌≤◌, length};
ghost use Rattle.state.specs.Tabled.{tabled};
ghost use Rattle.advance.specs.Advanced.{Advanced};
ghost use Rattle.advance.specs.Parts.{Bounded, Takes, Posts, taken_off, left_of, posted_at, carried_rows, carried_bench};
ghost use Rattle.state.specs.Stepped.{stepped};

use decide::{Plan, View};
use state::{Bench, Event};
use tables::Row;
use words::Message;
use words::refusal::Refusal;

// The message at a place is taken off the messages in flight, and so many are left.
fn take(messages: &mut [Message], flight: usize, taken: Option<usize>) -> usize
    requires { Takes taken flight × (flight ≤ length messages.old) }
    ensures { (result ≡ left_of taken flight) × (messages.new ≡ taken_off taken flight messages.old) }
{
    let Some(at) = taken else {
        return flight;
    };
    tables::take_off(messages, at, flight);
    flight - 1
}

// What is sent is laid behind the messages in flight.
fn post(messages: &mut [Message], flight: usize, posted: Option<(Message, u8)>)
    requires { Posts flight posted (length messages.old) }
    ensures { messages.new ≡ posted_at flight posted messages.old }
{
    if let Some((first, count)) = posted {
        tables::post(messages, flight, count, first);
    }
}

fn write(rows: &mut [Row], row: Option<(usize, Row)>)
    ensures { rows.new ≡ carried_rows row rows.old }
{
    if let Some((place, row)) = row {
        tables::put(rows, place, row);
    }
}

// The bench after an accepted event, of whose messages in flight so many were left.
fn moved(mut bench: Bench, event: Event, plan: Plan, left: usize) -> Bench
    requires { Bounded bench × (left ≡ left_of plan.taken bench.flight) }
    ensures { result ≡ carried_bench plan event bench }
{
    let count = match plan.posted {
        Some((_, count)) => count,
        None => 0,
    };
    bench.accepted += 1;
    bench.sent += u32::from(count);
    bench.flight = left as u16 + u16::from(count);
    if let Some((p, r)) = plan.replica {
        tables::put(&mut bench.replicas, p.0.saturating_sub(1) as usize, r);
    }
    match event {
        Event::Read(_, _) | Event::Write(_, _, _) => bench.rows += 1,
        Event::Deliver(_) => bench.delivered += 1,
        Event::Crash(_) => (),
        Event::Lose(_) => bench.lost += 1,
    }
    bench
}

// One event, carried out on the bench and the two tables that it is tabled in.
pub fn advance(
    messages: &mut [Message],
    rows: &mut [Row],
    bench: Bench,
    event: Event,
) -> Result<Bench, Refusal>
    requires { tabled bench messages.old rows.old ≡ true }
    ensures { Advanced bench event messages.old rows.old (stepped bench result) messages.new rows.new }
{
    let view = View {
        bench: &bench,
        flight: &messages[..bench.flight as usize],
        rows: &rows[..bench.rows as usize],
    };
    let plan = view.plan_of(event)?;
    let left = take(messages, bench.flight as usize, plan.taken);
    post(messages, left, plan.posted);
    write(rows, plan.row);
    Ok(moved(bench, event, plan, left))
}
