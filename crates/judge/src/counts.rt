// The counts of a bench, and those of them that the other tests look at.
ghost use Rattle.std.specs.Prelude.{◌≡◌};
ghost use Rattle.judge.specs.Scans.{limits_of, counts_judged};

use crate::Limits;
use state::Bench;
use words::limits::{EVENTS, PROCESSES, REGISTERS};
use words::ranges::is_within;

pub fn limits_of(b: Bench) -> Limits
    ensures { result ≡ limits_of b }
{
    Limits {
        n: b.n,
        m: b.m,
        accepted: u32::from(b.accepted),
        sent: b.sent,
    }
}

pub fn counts_fit(b: Bench) -> bool
    ensures { result ≡ counts_judged b }
{
    is_within(b.n, PROCESSES)
        & is_within(b.m, REGISTERS)
        & (b.accepted <= EVENTS)
        & (b.sent <= u32::from(PROCESSES) * u32::from(b.accepted))
        & (u64::from(b.sent) == u64::from(b.delivered) + u64::from(b.lost) + u64::from(b.flight))
}
