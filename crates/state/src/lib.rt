// The state of a bench, up to seven replicas joined by a table of messages, with a history of operations; and the events. The specs say what
// an event does, what is well formed, and which states are reached. The code stands in the crate above.
#![tactic(auto)]

use replica::Replica;
use words::Pid;

// The counts, and the replicas. The messages in flight and the rows of the history lie in the two lent tables.
#[derive(Clone, Copy, Debug, Default, PartialEq, Eq)]
pub struct Bench {
    pub n: u8,
    pub m: u8,
    pub accepted: u16,
    pub sent: u32,
    pub delivered: u32,
    pub lost: u32,
    pub flight: u16,
    pub rows: u16,
    pub replicas: [Replica; 7],
}

#[derive(Clone, Copy, Debug, PartialEq, Eq)]
pub enum Event {
    Read(Pid, u8),
    Write(Pid, u8, i64),
    Deliver(u32),
    Crash(Pid),
    Lose(u32),
}
