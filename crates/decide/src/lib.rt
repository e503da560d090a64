// What an event does, decided from the bench and what is in use of its two tables: a plan, or the refusal. All rules and all branches of the
// bench stand here; whoever holds the tables only carries the plan out.
#![tactic(auto)]

ghost use Rattle.std.specs.Prelude.{◌≤◌, length};

use replica::Replica;
use state::Bench;
use tables::Row;
use words::{Message, Pid};

mod checks;
pub mod events;
mod gather;
mod rows;
mod sends;

// The counts that the checks look at.
#[derive(Clone, Copy)]
pub struct Counters {
    pub n: u8,
    pub m: u8,
    pub accepted: u16,
    pub sent: u32,
    pub flight: usize,
    pub rows: usize,
}

// The state that is looked at: the counts and the replicas, the messages in flight, and the rows of the history. It has numbers left for one more
// event's messages, and for one more row.
#[derive(Clone, Copy)]
pub struct View<'a> {
    pub bench: &'a Bench,
    pub flight: &'a [Message],
    pub rows: &'a [Row],
    pub ghost messages_numbered: { bench.now.sent ≤ 84000 },
    pub ghost rows_numbered: { length rows.now ≤ 1024 },
}

// What is to be carried out: the replica of a process that takes its step; the message at a place, which is taken off; a message that is sent,
// and how many with it, one number and one process further each; and the row at a place, which is written.
#[derive(Clone, Copy)]
pub struct Plan {
    pub replica: Option<(Pid, Replica)>,
    pub taken: Option<usize>,
    pub posted: Option<(Message, u8)>,
    pub row: Option<(usize, Row)>,
}
