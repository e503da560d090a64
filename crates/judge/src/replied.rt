// Whose replies ended the phases of a row: enough processes, and nobody where the phase has not ended or the operation has none.
ghost use Rattle.std.specs.Prelude.{◌≡◌};
ghost use Rattle.state.specs.Needed.{responses_needed, acks_needed};
ghost use Rattle.state.specs.WellFormed.{enough, query_fits, update_fits};
ghost use Rattle.judge.specs.Scans.{limited};

use crate::Limits;
use crate::needed::{acks_needed, responses_needed};
use tables::{Kind, Row};
use words::quorum::size;
use words::ranges::repliers_fit;

// A set that ended a phase: as many processes as it needed, all of 1..N.
fn is_enough(l: Limits, least: u8, set: u8) -> bool
    ensures { result ≡ enough (limited l) least set }
{
    repliers_fit(l.n, set) & (u32::from(least) <= size(set))
}

// One that ended a query phase.
pub fn has_queried(l: Limits, heard: u8) -> bool
    ensures { result ≡ enough (limited l) (responses_needed (limited l)) heard }
{
    is_enough(l, responses_needed(l), heard)
}

// One that ended an update phase.
fn has_updated(l: Limits, acked: u8) -> bool
    ensures { result ≡ enough (limited l) (acks_needed (limited l)) acked }
{
    is_enough(l, acks_needed(l), acked)
}

// A write has no query phase; a completed read's has ended, a pending one's may have.
pub fn query_fits(l: Limits, r: Row) -> bool
    ensures { result ≡ query_fits (limited l) r }
{
    let heard = r.replied.query;
    match r.kind {
        Kind::Write => heard == 0,
        Kind::Read => has_queried(l, heard) | ((r.answered.0 == 0) & (heard == 0)),
    }
}

// The update phase of a completed operation has ended, that of a pending one has not.
pub fn update_fits(l: Limits, r: Row) -> bool
    ensures { result ≡ update_fits (limited l) r }
{
    if r.answered.0 == 0 {
        r.replied.update == 0
    } else {
        has_updated(l, r.replied.update)
    }
}
