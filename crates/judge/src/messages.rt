// One message, in flight or of an unused place; and all of them.
ghost use Rattle.std.specs.Prelude.{◌≡◌};
ghost use Rattle.state.specs.WellFormed.{body_fits, message_fits};
ghost use Rattle.state.specs.Tabled.{is_empty_message};
ghost use Rattle.judge.specs.Scans.{limited, risen, messages_judged};

use crate::Limits;
use words::limits::{FLIGHT, MESSAGE_PLACES};
use words::ranges::{is_within, pair_fits};
use words::{Body, Message};

fn body_fits(l: Limits, body: Body) -> bool
    ensures { result ≡ body_fits (limited l) body }
{
    match body {
        Body::Query(x) => is_within(x, l.m),
        Body::Response(pair) => pair_fits(pair, l.accepted, l.n),
        Body::Update(x, pair) => is_within(x, l.m) & pair_fits(pair, l.accepted, l.n),
        Body::Ack => true,
    }
}

fn message_fits(l: Limits, m: Message) -> bool
    ensures { result ≡ message_fits (limited l) m }
{
    is_within(m.from.0, l.n)
        & is_within(m.to.0, l.n)
        & (m.time.0 <= l.accepted)
        & (u64::from(m.rid.0) <= 2 * u64::from(l.accepted))
        & body_fits(l, m.body)
}

fn is_empty_message(m: Message) -> bool
    ensures { result ≡ is_empty_message m }
{
    m == Message::default()
}

// The messages in flight fit, and their numbers rise, from 1 to the count sent.
fn all_rise(l: Limits, flight: &[Message]) -> bool
    ensures { result ≡ risen (limited l) 0 flight.now }
{
    let mut last = 0;
    for m in flight {
        if !(message_fits(l, *m) & (last < m.number) & (m.number <= l.sent)) {
            return false;
        }
        last = m.number;
    }
    true
}

// Every message in flight fits, and every other place is empty.
pub fn messages_fit(l: Limits, flight: u16, t: &[Message]) -> bool
    ensures { result ≡ messages_judged (limited l) flight t.now }
{
    if (t.len() != MESSAGE_PLACES) | (flight > FLIGHT) {
        return false;
    }
    let (flight, unused) = t.split_at(flight as usize);
    all_rise(l, flight) & unused.iter().all(|m| is_empty_message(*m))
}
