// One row, in use or of an unused place; the pending rows of each process; and all rows.
ghost use Rattle.std.specs.Prelude.{◌≡◌, ◌≤◌, length, replicate};
ghost use Rattle.state.specs.WellFormed.{row_fits};
ghost use Rattle.state.specs.Tabled.{is_empty_row};
ghost use Rattle.judge.specs.declared.Waiting.TheVariants.{Nothing};
ghost use Rattle.judge.specs.Scans.{limited, is_pending, noted, noted_in, scanned, rows_judged};

use crate::{Limits, Pending, Waiting, replied};
use tables::{Kind, Row};
use words::Pair;
use words::limits::{PROCESSES, ROW_PLACES, ROWS};
use words::ranges::{is_within, pair_fits};

fn row_fits(l: Limits, r: Row) -> bool
    ensures { result ≡ row_fits (limited l) r }
{
    let pair = Pair {
        stamp: r.stamp,
        value: r.value,
    };
    is_within(r.process.0, l.n)
        & is_within(r.register, l.m)
        & (r.invoked.0 <= l.accepted)
        & (r.answered.0 <= l.accepted)
        & pair_fits(pair, l.accepted, l.n)
        & (matches!(r.kind, Kind::Read) | (r.stamp.time.0 != 0))
        & replied::query_fits(l, r)
        & replied::update_fits(l, r)
}

fn is_empty_row(r: Row) -> bool
    ensures { result ≡ is_empty_row r }
{
    r == Row::default()
}

// A row of a process that was not answered yet.
fn is_pending(r: Row) -> bool
    ensures { result ≡ is_pending r }
{
    is_within(r.process.0, PROCESSES) & (r.answered.0 == 0)
}

// One more pending row of a process.
fn one_more(w: Waiting, number: usize, r: Row) -> Waiting
    ensures { result ≡ noted w number r }
{
    match w {
        Waiting::Nothing => Waiting::One(Pending {
            row: number,
            write: matches!(r.kind, Kind::Write),
            query: r.replied.query,
        }),
        Waiting::One(_) => Waiting::Several,
        Waiting::Several => w,
    }
}

// A row is noted for its process, if it is pending.
fn note(waiting: &mut [Waiting; 7], number: usize, r: Row)
    ensures { waiting.new ≡ noted_in waiting.old number r }
{
    if is_pending(r) {
        let at = usize::from(r.process.0 - 1);
        let seen = waiting[at];
        waiting[at] = one_more(seen, number, r);
    }
}

// What is seen of the rows in use; nothing where one of them does not fit.
fn waiting_of(l: Limits, rows: &[Row]) -> Option<[Waiting; 7]>
    requires { length rows.now ≤ 1024 }
    ensures { result ≡ scanned (limited l) (replicate 7 Nothing) 1 rows.now }
{
    let mut waiting = [Waiting::Nothing; 7];
    for (i, r) in rows.iter().enumerate() {
        if !row_fits(l, *r) {
            return None;
        }
        note(&mut waiting, i + 1, *r);
    }
    Some(waiting)
}

// What is seen of the history; nothing where a row does not fit or a place behind them is not empty.
pub fn waiting_in(l: Limits, used: u16, t: &[Row]) -> Option<[Waiting; 7]>
    ensures { result ≡ rows_judged (limited l) used t.now }
{
    if (t.len() != ROW_PLACES) | (used > ROWS) {
        return None;
    }
    let (rows, unused) = t.split_at(used as usize);
    if unused.iter().all(|r| is_empty_row(*r)) {
        waiting_of(l, rows)
    } else {
        None
    }
}
