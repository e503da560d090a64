// The rows of the history: how one begins, and what the end of a phase makes of it.
ghost use Rattle.std.specs.Prelude.{◌≡◌, ◌-◌};
ghost use Rattle.replica.specs.Numbers.{pointed};
ghost use Rattle.state.specs.Step.{completed, queried_row};
ghost use Rattle.decide.specs.Plan.{begun_row};
ghost use Rattle.decide.specs.PlanBy.{register_asked, row_by};

use replica::{Ended, Phase, phases};
use tables::{Kind, Replied, Row};
use words::{Pair, Pid, Stamp, Time};

// A row at its invocation, which is pending: of a read, or of the write of a value.
pub(crate) fn begun_row(p: Pid, x: u8, clock: Time, written: Option<i64>) -> Row
    ensures { result ≡ begun_row p x clock.0 written }
{
    let read = Row {
        process: p,
        kind: Kind::Read,
        register: x,
        invoked: clock,
        ..Row::default()
    };
    match written {
        None => read,
        Some(value) => Row {
            kind: Kind::Write,
            stamp: Stamp {
                time: clock,
                process: p,
            },
            value,
            ..read
        },
    }
}

// The query phase ended by the replies of these processes.
fn queried_row(row: Row, who: u8) -> Row
    ensures { result ≡ queried_row row who }
{
    Row {
        replied: Replied {
            query: who,
            ..row.replied
        },
        ..row
    }
}

// A completed read has the pair it chose; a write keeps its own. The update phase ended by the acks of these processes.
fn completed_row(row: Row, time: Time, pair: Pair, who: u8) -> Row
    ensures { result ≡ completed row time pair who }
{
    let done = Row {
        answered: time,
        replied: Replied {
            update: who,
            ..row.replied
        },
        ..row
    };
    match row.kind {
        Kind::Write => done,
        Kind::Read => Row {
            stamp: pair.stamp,
            value: pair.value,
            ..done
        },
    }
}

// The register that a querying replica asks for, which its row has. Any other asks for none, and 1 stands in.
pub(crate) fn asked_register(phase: Phase, row: Row) -> u8
    ensures { result ≡ register_asked phase row }
{
    match phase {
        Phase::Querying(_, _) => row.register,
        _ => 1,
    }
}

// Rows are counted from 1.
pub(crate) fn place_of(number: u16) -> usize
    ensures { result ≡ number - 1 }
{
    usize::from(number.saturating_sub(1))
}

// The row that the end of a phase writes: the one that the replica pointed to.
pub(crate) fn written_by(row: Row, phase: Phase, ended: Ended) -> Option<(usize, Row)>
    ensures { result ≡ row_by row (pointed phase) ended }
{
    let next = match ended {
        Ended::Pending => return None,
        Ended::Query(who) => queried_row(row, who),
        Ended::At(time, pair, who) => completed_row(row, time, pair, who),
    };
    Some((place_of(phases::pointed_by(phase)), next))
}
