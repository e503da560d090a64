// What each process is doing: down, idle, waiting or stuck. By value; whoever holds the tables tests them first.
#![tactic(auto)]

ghost use Rattle.std.specs.Prelude.{◌≡◌, length};
ghost use Rattle.standing.specs.Status.{status_of, standing_of, enough_up, standings_of};

use replica::Replica;
use replica::phases::is_idle;
use state::Bench;
use words::quorum::majority;

#[derive(Clone, Copy, Debug, PartialEq, Eq)]
pub enum Status {
    Down,
    Idle,
    Waiting,
    Stuck,
}

// One process, given whether enough processes are up.
pub fn status_of(r: Replica, enough: bool) -> Status
    ensures { result ≡ status_of r enough }
{
    if r.crashed {
        Status::Down
    } else if is_idle(r.phase) {
        Status::Idle
    } else if enough {
        Status::Waiting
    } else {
        Status::Stuck
    }
}

// The same at a place of the replicas: behind N it reads down.
fn standing_of(r: Replica, is_used: bool, enough: bool) -> Status
    ensures { result ≡ standing_of r is_used enough }
{
    if is_used {
        status_of(r, enough)
    } else {
        Status::Down
    }
}

// Whether a majority of the N are up.
fn enough_up(b: &Bench) -> bool
    ensures { result ≡ enough_up b.now }
{
    let up = b
        .replicas
        .iter()
        .take(b.n as usize)
        .filter(|r| !r.crashed)
        .count();
    majority(b.n) as usize <= up
}

// Every process's status, for a bench whose tables were tested.
pub fn standings_of(b: Bench) -> [Status; 7]
    ensures { result ≡ standings_of b }
{
    let enough = enough_up(&b);
    let mut standings = [Status::Down; 7];
    for (at, r) in b.replicas.iter().enumerate() {
        standings[at] = standing_of(*r, at < b.n as usize, enough);
    }
    standings
}
