// Whether a bench and its two lent tables are well formed: 18 is given exactly when they are not. Each test of one message, one row or one
// replica goes by value; a table is gone through once, and what was seen of it is carried along.
#![tactic(auto)]

ghost use Rattle.std.specs.Prelude.{◌≡◌};
ghost use Rattle.state.specs.Tabled.{tabled};

use state::Bench;
use tables::Row;
use words::Message;

mod counts;
mod messages;
mod needed;
mod replicas;
mod replied;
mod rows;

// The counts that the tests look at.
#[derive(Clone, Copy)]
pub struct Limits {
    pub n: u8,
    pub m: u8,
    pub accepted: u32,
    pub sent: u32,
}

// A pending row: its number, counted from 1, whether it is a write's, and whose replies ended its query phase.
#[derive(Clone, Copy)]
pub struct Pending {
    pub row: usize,
    pub write: bool,
    pub query: u8,
}

// What was seen of one process's pending rows.
#[derive(Clone, Copy)]
pub enum Waiting {
    Nothing,
    One(Pending),
    Several,
}

// Whether the bench and its two tables are well formed.
pub fn is_tabled(b: Bench, messages: &[Message], rows: &[Row]) -> bool
    ensures { result ≡ tabled b messages.now rows.now }
{
    let l = counts::limits_of(b);
    let Some(waiting) = rows::waiting_in(l, b.rows, rows) else {
        return false;
    };
    messages::messages_fit(l, b.flight, messages)
        & counts::counts_fit(b)
        & replicas::replicas_fit(l, waiting, b.replicas)
}
