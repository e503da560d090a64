// One replica, of a process of the bench or behind them; and all seven.
ghost use Rattle.std.specs.Prelude.{◌≡◌};
ghost use Rattle.state.specs.WellFormed.{is_start, is_fresh};
ghost use Rattle.judge.specs.Scans.{
  limited,
  stored_at,
  stored_fit,
  phase_judged,
  replica_judged,
  process_judged,
  replicas_judged,
};

use crate::needed::needed_in;
use crate::replied::has_queried;
use crate::{Limits, Waiting};
use replica::{Phase, Replica};
use words::Pair;
use words::quorum::size;
use words::ranges::{pair_fits, repliers_fit};

fn is_start(p: Pair) -> bool
    ensures { result ≡ is_start p }
{
    p == Pair::default()
}

// A register's pair: of the bench, or the starting pair behind its registers.
fn stored_at(l: Limits, inside: bool, p: Pair) -> bool
    ensures { result ≡ stored_at (limited l) inside p }
{
    if inside {
        pair_fits(p, l.accepted, l.n)
    } else {
        is_start(p)
    }
}

// The first m pairs are of the bench, the others the starting pair.
fn stored_fit(l: Limits, m: u8, pairs: [Pair; 16]) -> bool
    ensures { result ≡ stored_fit (limited l) m pairs }
{
    let mut ok = true;
    for (i, p) in pairs.iter().enumerate() {
        ok = ok & stored_at(l, i < m as usize, *p);
    }
    ok
}

// A process that waits has one pending row, to which its phase points; an idle one has none.
fn phase_fits(l: Limits, w: Waiting, phase: Phase, repliers: u8) -> bool
    ensures { result ≡ phase_judged (limited l) w phase repliers }
{
    match (phase, w) {
        (Phase::Idle, Waiting::Nothing) => repliers == 0,
        (Phase::Querying(row, gathered), Waiting::One(p)) => {
            (p.row == usize::from(row))
                & !p.write
                & pair_fits(gathered.best, l.accepted, l.n)
                & (p.query == 0)
        }
        (Phase::Updating(row, sent), Waiting::One(p)) => {
            (p.row == usize::from(row))
                & pair_fits(sent, l.accepted, l.n)
                & (p.write | has_queried(l, p.query))
        }
        _ => false,
    }
}

// The replica of a process of the bench.
fn replica_fits(l: Limits, w: Waiting, r: Replica) -> bool
    ensures { result ≡ replica_judged (limited l) w r }
{
    (r.clock.0 <= l.accepted)
        & (u64::from(r.rid.0) <= 2 * u64::from(l.accepted))
        & stored_fit(l, l.m, r.pairs)
        & repliers_fit(l.n, r.repliers)
        & (size(r.repliers) < u32::from(needed_in(l, r.phase)))
        & phase_fits(l, w, r.phase, r.repliers)
}

// The replica of a process behind them: up, idle and otherwise 0.
fn is_fresh(r: Replica) -> bool
    ensures { result ≡ is_fresh r }
{
    r == Replica::default()
}

fn process_fits(l: Limits, p: u8, w: Waiting, r: Replica) -> bool
    ensures { result ≡ process_judged (limited l) p w r }
{
    if p <= l.n {
        replica_fits(l, w, r)
    } else {
        is_fresh(r)
    }
}

pub fn replicas_fit(l: Limits, waiting: [Waiting; 7], replicas: [Replica; 7]) -> bool
    ensures { result ≡ replicas_judged (limited l) waiting replicas }
{
    let mut ok = true;
    for (i, r) in replicas.iter().enumerate() {
        ok = ok & process_fits(l, i as u8 + 1, waiting[i], *r);
    }
    ok
}
