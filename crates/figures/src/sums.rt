// Sums of what schedules come to, and that they stay within 64 bits.
ghost use Rattle.std.specs.Prelude.{◌≡◌, SomeIff};
ghost use Rattle.figures.specs.Figures.{
  lesser,
  plus_operations,
  plus_waits,
  plus_history,
  plus_traffic,
};
ghost use Rattle.figures.specs.Parts.{OperationsRoom, WaitsRoom, HistoryRoom, TrafficRoom};

use crate::{History, Operations, Traffic, Waits};

// What schedules come to, added one to another.
pub trait Total: Sized {
    ghost sum: { Self → Self → Self };

    // No total of the sum passes 64 bits.
    ghost room: { Self → Self → Type 0 };

    // Both together, if there is room.
    fn checked_plus(self, other: Self) -> Option<Self>
        ensures { SomeIff result (room self other) (sum self other) };

    // Both together, where there is room.
    final fn plus(self, other: Self) -> Self
        requires { room self other }
        ensures { result ≡ sum self other }
    {
        self.checked_plus(other).unwrap()
    }
}

impl Total for Operations {
    ghost sum = { plus_operations };

    ghost room = { OperationsRoom };

    fn checked_plus(self, other: Operations) -> Option<Operations> {
        Some(Operations {
            begun: self.begun.checked_add(other.begun)?,
            completed: self.completed.checked_add(other.completed)?,
        })
    }
}

impl Waits {
    // The least of both, where one may have none.
    fn least_with(self, other: Waits) -> u64
        ensures { result ≡ lesser self.count self.least other.count other.least }
    {
        match (self.count, other.count) {
            (0, _) => other.least,
            (_, 0) => self.least,
            _ => self.least.min(other.least),
        }
    }
}

impl Total for Waits {
    ghost sum = { plus_waits };

    ghost room = { WaitsRoom };

    fn checked_plus(self, other: Waits) -> Option<Waits> {
        Some(Waits {
            count: self.count.checked_add(other.count)?,
            sum: self.sum.checked_add(other.sum)?,
            least: self.least_with(other),
            greatest: self.greatest.max(other.greatest),
        })
    }
}

impl Total for History {
    ghost sum = { plus_history };

    ghost room = { HistoryRoom };

    fn checked_plus(self, other: History) -> Option<History> {
        Some(History {
            reads: self.reads.checked_plus(other.reads)?,
            writes: self.writes.checked_plus(other.writes)?,
            waits: self.waits.checked_plus(other.waits)?,
        })
    }
}

impl Total for Traffic {
    ghost sum = { plus_traffic };

    ghost room = { TrafficRoom };

    fn checked_plus(self, other: Traffic) -> Option<Traffic> {
        Some(Traffic {
            sent: self.sent.checked_add(other.sent)?,
            delivered: self.delivered.checked_add(other.delivered)?,
            lost: self.lost.checked_add(other.lost)?,
            left: self.left.checked_add(other.left)?,
        })
    }
}
