// What the plan of an event is made from, looked up in the state that is looked at.
ghost use Rattle.std.specs.Prelude.{◌≡◌, ◌-◌};
ghost use Rattle.state.specs.State.{replica_of, row_of};
ghost use Rattle.decide.specs.Plan.{seen};
ghost use Rattle.decide.specs.PlanBy.{counters_of, found_of, message_found, process_of, down_of};

use crate::{Counters, View, rows};
use replica::Replica;
use state::Event;
use tables::Row;
use words::{Message, Pid};

// The process that takes a step: the event's, or the message's recipient.
pub(crate) fn process_of(event: Event, message: Message) -> Pid
    ensures { result ≡ process_of event message }
{
    match event {
        Event::Read(p, _) | Event::Write(p, _, _) | Event::Crash(p) => p,
        Event::Deliver(_) | Event::Lose(_) => message.to,
    }
}

// Processes are counted from 1.
fn place_of(p: Pid) -> usize
    ensures { result ≡ p.0 - 1 }
{
    usize::from(p.0.saturating_sub(1))
}

impl View<'_> {
    pub(crate) fn counters(self) -> Counters
        ensures { result ≡ counters_of (seen self.entry) }
    {
        Counters {
            n: self.bench.n,
            m: self.bench.m,
            accepted: self.bench.accepted,
            sent: self.bench.sent,
            flight: self.flight.len(),
            rows: self.rows.len(),
        }
    }

    // The place of the message that is delivered or lost, and the message: the empty one where there is none.
    #[tactic(auto, using(crate::proofs::FoundLaws::found_within))]
    pub(crate) fn sought(self, event: Event) -> (Option<usize>, Message)
        ensures place { result.0 ≡ found_of (seen self.entry) event }
        ensures message { result.1 ≡ message_found (seen self.entry).flight result.0 }
    {
        let k = match event {
            Event::Deliver(k) | Event::Lose(k) => k,
            Event::Read(_, _) | Event::Write(_, _, _) | Event::Crash(_) => {
                return (None, Message::default());
            }
        };
        match tables::find(self.flight, self.flight.len(), k) {
            Some(at) => (Some(at), self.flight[at]),
            None => (None, Message::default()),
        }
    }

    // Process p's replica; a fresh one where there is none.
    pub(crate) fn replica(self, p: Pid) -> Replica
        ensures { result ≡ replica_of (seen self.entry) p.0 }
    {
        self.bench
            .replicas
            .get(place_of(p))
            .copied()
            .unwrap_or_default()
    }

    fn is_crashed(self, p: Pid) -> bool
        ensures { result ≡ (replica_of (seen self.entry) p.0).crashed }
    {
        match self.bench.replicas.get(place_of(p)) {
            Some(r) => r.crashed,
            None => false,
        }
    }

    // Whether one of the two ends of a message has crashed.
    pub(crate) fn is_down(self, message: Message) -> bool
        ensures { result ≡ down_of (seen self.entry) message }
    {
        self.is_crashed(message.from) | self.is_crashed(message.to)
    }

    // Row number i, counted from 1; an empty one where there is none.
    pub(crate) fn row(self, number: u16) -> Row
        ensures { result ≡ row_of (seen self.entry) number }
    {
        self.rows
            .get(rows::place_of(number))
            .copied()
            .unwrap_or_default()
    }
}
