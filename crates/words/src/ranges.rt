// The ranges of one number, stamp, pair, envelope or replier set.
ghost use Rattle.std.specs.Prelude.{◌≡◌};
ghost use Rattle.words.specs.Ranges.{within, stamp_fits, pair_fits, sender_fits, repliers_fit};
ghost use Rattle.words.specs.Limits.{most_rows};

use crate::limits::{MOST_RID, MOST_TIME, PROCESSES, ROWS};
use crate::{Pair, Sender, Stamp};

// A number from 1 to `most`. A name over `contains`, as `row_fits` is: the contracts above cite `within`, and not a range.
pub fn is_within(x: u8, most: u8) -> bool
    ensures { result ≡ within x most }
{
    (1..=most).contains(&x)
}

pub fn row_fits(row: u16) -> bool
    ensures { result ≡ within row most_rows }
{
    (1..=ROWS).contains(&row)
}

// A time of at most `limit`; process 0 exactly when the time is 0, and otherwise 1 to `n`.
pub fn stamp_fits(s: Stamp, limit: u32, n: u8) -> bool
    ensures { result ≡ stamp_fits limit n s }
{
    (s.time.0 <= limit) & ((s.time.0 == 0) == (s.process.0 == 0)) & (s.process.0 <= n)
}

// A stamp that fits, and with the time 0 the value 0.
pub fn pair_fits(p: Pair, limit: u32, n: u8) -> bool
    ensures { result ≡ pair_fits limit n p }
{
    stamp_fits(p.stamp, limit, n) & ((p.stamp.time.0 != 0) | (p.value == 0))
}

// The sender of a message that was received, one of `n` processes.
pub fn sender_fits(n: u8, sender: Sender) -> bool
    ensures { result ≡ sender_fits n sender.from sender.time sender.rid }
{
    is_within(sender.from.0, n) & (sender.time.0 <= MOST_TIME) & (sender.rid.0 <= MOST_RID)
}

// A replier set inside 1 to `n`: bit 0 is no process, and no bit above `n` is set.
pub fn repliers_fit(n: u8, repliers: u8) -> bool
    ensures { result ≡ repliers_fit n repliers }
{
    (repliers % 2 == 0) & (u16::from(repliers) < 1 << (n.min(PROCESSES) + 1))
}
