// How many replies end a phase.
ghost use Rattle.std.specs.Prelude.{◌≡◌};
ghost use Rattle.state.specs.Needed.{responses_needed, acks_needed, needed};
ghost use Rattle.judge.specs.Scans.{limited};

use crate::Limits;
use replica::Phase;
use words::quorum::majority;

// Responses that end a query phase. A function beside `acks_needed`, since `Needed.antt` of `state` defines the two numbers apart.
pub fn responses_needed(l: Limits) -> u8
    ensures { result ≡ responses_needed (limited l) }
{
    majority(l.n)
}

// Acks that end an update phase.
pub fn acks_needed(l: Limits) -> u8
    ensures { result ≡ acks_needed (limited l) }
{
    majority(l.n)
}

// By phase. An idle process waits for none, and 1 stands in.
pub fn needed_in(l: Limits, phase: Phase) -> u8
    ensures { result ≡ needed (limited l) phase }
{
    match phase {
        Phase::Idle => 1,
        Phase::Querying(_, _) => responses_needed(l),
        Phase::Updating(_, _) => acks_needed(l),
    }
}
