// Stamps are compared by time, then by process; hosts that print our tables compare them as one number, and so do we. Of two pairs the newer is
// kept, and the earlier of equals.
ghost use Rattle.std.specs.Prelude.{◌≡◌};
ghost use Rattle.words.specs.Rank.{rank};
ghost use Rattle.words.specs.Stamps.{below, newer};

use crate::{Pair, Stamp};

// A rank has room for the processes below this.
const PLACES: u8 = 8;

// The one number of a stamp. The numbers compare as the stamps do while the processes are below 8: (1, 9) and (2, 1) have the same.
pub fn rank_of(s: Stamp) -> u64
    ensures { result ≡ rank s }
{
    u64::from(s.time.0) * u64::from(PLACES) + u64::from(s.process.0)
}

// By the one number, where it compares as the stamps do; else by the derived order, which is document 01's.
#[tactic(auto, using(crate::proofs::DerivedLaws::derived_below))]
pub fn is_below(a: Stamp, b: Stamp) -> bool
    ensures { result ≡ below a b }
{
    if (a.process.0 < PLACES) & (b.process.0 < PLACES) {
        return rank_of(a) < rank_of(b);
    }
    a < b
}

#[tactic(auto, unfolding(crate::specs::Stamps::newer))]
pub fn newer_of(kept: Pair, other: Pair) -> Pair
    ensures { result ≡ newer kept other }
{
    if is_below(kept.stamp, other.stamp) {
        other
    } else {
        kept
    }
}
