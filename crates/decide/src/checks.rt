// Document 01's checks, in its order: the first that holds refuses the event.
ghost use Rattle.std.specs.Prelude.{◌≡◌, ◌+◌, ℕ, false};
ghost use Rattle.replica.specs.Handlers.{is_idle};
ghost use Rattle.state.specs.Step.{no_room};
ghost use Rattle.decide.specs.Checks.{full, invoke_checks, crash_checks};
ghost use Rattle.decide.specs.Plan.{checked};

use crate::Counters;
use replica::{Replica, phases};
use words::Pid;
use words::limits::{EVENTS, MESSAGE_PLACES, ROW_PLACES};
use words::ranges::is_within;
use words::refusal::Refusal;

impl Counters {
    // The check that stands before all others.
    pub(crate) fn is_full(self) -> bool
        ensures { result ≡ full self }
    {
        EVENTS <= self.accepted
    }

    // Whether process p, whose replica is r, may begin an operation on register x.
    pub(crate) fn may_invoke(self, p: Pid, x: u8, r: Replica) -> Result<(), Refusal>
        requires { full self ≡ false }
        ensures { (later : ℕ) → checked result later ≡ invoke_checks self p.0 x r.crashed (is_idle r.phase) later }
    {
        if !is_within(p.0, self.n) {
            return Err(Refusal::NoProcess);
        }
        if !is_within(x, self.m) {
            return Err(Refusal::NoRegister);
        }
        if r.crashed {
            return Err(Refusal::Crashed);
        }
        if !phases::is_idle(r.phase) {
            return Err(Refusal::Pending);
        }
        if ROW_PLACES <= self.rows {
            return Err(Refusal::NoRow);
        }
        if is_over(self.flight, self.n) {
            return Err(Refusal::NoRoom);
        }
        Ok(())
    }

    // Whether process p, whose replica is r, may crash.
    pub(crate) fn may_crash(self, p: Pid, r: Replica) -> Result<(), Refusal>
        requires { full self ≡ false }
        ensures { (later : ℕ) → checked result later ≡ crash_checks self p.0 r.crashed later }
    {
        if !is_within(p.0, self.n) {
            return Err(Refusal::NoProcess);
        }
        if r.crashed {
            return Err(Refusal::Crashed);
        }
        Ok(())
    }
}

// With so many more, more messages in flight than there are places.
pub(crate) fn is_over(flight: usize, more: u8) -> bool
    ensures { result ≡ no_room (flight + more) }
{
    MESSAGE_PLACES < flight.saturating_add(usize::from(more))
}
