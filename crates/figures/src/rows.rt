// What one row comes to.
ghost use Rattle.std.specs.Prelude.{◌≡◌, [], ◌∷◌};
ghost use Rattle.figures.specs.Figures.{history_of};
ghost use Rattle.figures.specs.Parts.{one_operation, one_wait, most_wait, Few};

use crate::{History, Operations, Waits};
use tables::{Kind, Row};

// An operation, if it is of the kind that is counted.
fn one_operation(counts: bool, complete: bool) -> Operations
    ensures { result ≡ one_operation counts complete }
{
    Operations {
        begun: u64::from(counts),
        completed: u64::from(counts & complete),
    }
}

// A wait, if it is over.
fn one_wait(complete: bool, wait: u32) -> Waits
    ensures { result ≡ one_wait complete wait }
{
    if !complete {
        return Waits::default();
    }
    let wait = u64::from(wait);
    Waits {
        count: 1,
        sum: wait,
        least: wait,
        greatest: wait,
    }
}

pub fn of_row(row: Row) -> History
    ensures { (result ≡ history_of (row ∷ [])) × Few most_wait result }
{
    let write = matches!(row.kind, Kind::Write);
    let complete = row.answered.0 != 0;
    let wait = row.answered.0.saturating_sub(row.invoked.0);
    History {
        reads: one_operation(!write, complete),
        writes: one_operation(write, complete),
        waits: one_wait(complete, wait),
    }
}
