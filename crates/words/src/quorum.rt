// The replier set is one byte: process i is bit i, so bit 0 is never set. A phase ends with a majority of the processes.
// A plain byte and no type of its own: that is document 01's form of the set, in `Replica` and in a row's `Replied`.
ghost use Rattle.std.specs.Prelude.{◌≡◌, leb};
ghost use Rattle.words.specs.Quorum.{member, joined, counted, majority_of};

use crate::limits::PROCESSES;

#[tactic(auto, unfolding(crate::specs::Quorum::member))]
pub fn has(repliers: u8, process: u8) -> bool
    ensures { result ≡ member repliers process }
{
    process <= PROCESSES && (repliers >> process) % 2 == 1
}

#[tactic(auto, unfolding(crate::specs::Quorum::joined))]
pub fn with(repliers: u8, process: u8) -> u8
    ensures { result ≡ joined repliers process }
{
    if process <= PROCESSES {
        repliers | (1 << process)
    } else {
        repliers
    }
}

pub fn size(repliers: u8) -> u32
    ensures { result ≡ counted repliers }
{
    repliers.count_ones()
}

pub fn majority(n: u8) -> u8
    ensures { result ≡ majority_of n }
{
    n / 2 + 1
}

// Whether the processes that replied are a majority of `n`.
pub fn is_majority(repliers: u8, n: u8) -> bool
    ensures { result ≡ leb (majority_of n) (counted repliers) }
{
    u32::from(majority(n)) <= size(repliers)
}
