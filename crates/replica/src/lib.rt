// One replica: its state, and the handlers of one process. Every public function goes by value, and is total: it has no `requires`. Inside,
// a clock is lent (`clock.rt`).
#![tactic(auto)]

use words::{Body, Pair, Pid, Rid, Time};

mod clock;
mod fits;
mod gathering;
pub mod handlers;
pub mod phases;
mod refusals;
mod sending;

// What a query has gathered from the responses counted so far: the greatest pair, at first the starting pair.
#[derive(Clone, Copy, Debug, Default, PartialEq, Eq)]
pub struct Gathered {
    pub best: Pair,
}

// What a replica does: nothing; or it waits for replies on behalf of a row of the history. While querying it keeps what it has gathered,
// while updating the pair that it sent.
#[derive(Clone, Copy, Debug, Default, PartialEq, Eq)]
pub enum Phase {
    #[default]
    Idle,
    Querying(u16, Gathered),
    Updating(u16, Pair),
}

// A replica by default is up and idle, and every number is 0. Register x is at place x - 1.
#[derive(Clone, Copy, Debug, Default, PartialEq, Eq)]
pub struct Replica {
    pub crashed: bool,
    pub clock: Time,
    pub rid: Rid,
    pub phase: Phase,
    pub repliers: u8,
    pub pairs: [Pair; 16],
}

// What a sender puts into a message; its number and its two ends are the carrier's to add.
#[derive(Clone, Copy, Debug, PartialEq, Eq)]
pub struct Letter {
    pub time: Time,
    pub rid: Rid,
    pub body: Body,
}

// What a handler sends: nothing, one reply, or one broadcast to all processes.
#[derive(Clone, Copy, Debug, PartialEq, Eq)]
pub enum Sends {
    Nothing,
    Reply(Pid, Letter),
    Broadcast(Letter),
}

// Whether a phase ended: none; the query phase, by the replies of these processes, and the operation goes on; or the operation, at this
// response time with the chosen pair, by the acks of these.
#[derive(Clone, Copy, Debug, PartialEq, Eq)]
pub enum Ended {
    Pending,
    Query(u8),
    At(Time, Pair, u8),
}

// What an accepted event comes to: the next replica, and what follows.
#[derive(Clone, Copy, Debug, PartialEq, Eq)]
pub struct Handled {
    pub replica: Replica,
    pub sends: Sends,
    pub ended: Ended,
}
