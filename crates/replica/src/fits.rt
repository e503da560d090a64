// What every handler works with, inside the ranges of one replica.
ghost use Rattle.std.specs.Prelude.{◌≡◌, ◌≤◌};
ghost use Rattle.replica.specs.Ranges.{wait_fits, phase_inside, replica_inside};
ghost use Rattle.replica.specs.Handlers.{stored, stored_fits};

use crate::{Phase, Replica};
use words::Pair;
use words::limits::{MOST_RID, MOST_TIME, PROCESSES, REGISTERS};
use words::ranges::{is_within, pair_fits, repliers_fit, row_fits};

// A row of the history, and the pair that is kept while it waits.
fn wait_fits(row: u16, pair: Pair) -> bool
    ensures { result ≡ wait_fits row pair }
{
    row_fits(row) & pair_fits(pair, MOST_TIME, PROCESSES)
}

fn phase_fits(phase: Phase) -> bool
    ensures { result ≡ phase_inside phase }
{
    match phase {
        Phase::Idle => true,
        Phase::Querying(row, gathered) => wait_fits(row, gathered.best),
        Phase::Updating(row, sent) => wait_fits(row, sent),
    }
}

// The numbers that every handler works with. `n`: of how many processes the repliers may be.
pub fn replica_fits(n: u8, r: Replica) -> bool
    ensures { result ≡ replica_inside n r }
{
    (r.clock.0 <= MOST_TIME)
        & (r.rid.0 <= MOST_RID)
        & repliers_fit(n, r.repliers)
        & phase_fits(r.phase)
}

// The pair stored for a register.
pub fn stored(r: Replica, register: u8) -> Pair
    requires { (1 ≤ register) × (register ≤ 16) }
    ensures { result ≡ stored r register }
{
    r.pairs[usize::from(register - 1)]
}

// A register of 1 to 16 whose stored pair is inside the ranges.
pub fn stored_fits(r: Replica, register: u8) -> bool
    ensures { result ≡ stored_fits r register }
{
    is_within(register, REGISTERS) && pair_fits(stored(r, register), MOST_TIME, PROCESSES)
}
