// Judges a history of another sharing layer: does the proposed order explain it? The bytes of the file in; out the first fault that holds, if one does.
// Each fault is found by one pass over the rows or over the order, with a table of what was met on the way; so the work grows as the file does.
#![tactic(auto)]

ghost use Rattle.std.specs.Prelude.{◌≡◌};
ghost use Rattle.verdicts.specs.Faults.{faulted};
ghost use Rattle.verdicts.specs.Verdict.{verdict_of};

use crate::faults::Fault;
use crate::history::History;
use crate::passes::MARKS;

pub mod faults;
mod history;
mod layout;
mod passes;
pub mod rows;

// The verdict on a file: the order explains the history, or the first fault that holds.
pub fn verdict(bytes: &[u8]) -> Result<(), Fault>
    ensures { faulted result ≡ verdict_of bytes.now }
{
    let history = History::read(bytes)?;
    let mut seen = [0u8; MARKS];
    let known = history.known(&mut seen)?;
    known.judge(&seen)
}
