// A sheet, and one schedule more on it.
ghost use Rattle.std.specs.Prelude.{◌≡◌, ◌<◌, SomeIff};
ghost use Rattle.figures.specs.Figures.{entered, added_or28};
ghost use Rattle.figures.specs.Parts.{SheetRoom};
ghost use Rattle.figures.specs.Replies.{added_reply};

use crate::sums::Total;
use crate::{Entry, Sheet};
use std::error::Error;
use std::fmt;

const PASSES_64_BITS: u8 = 28;

// A total would pass 64 bits, and the schedule is not added.
#[derive(Clone, Copy, Debug, PartialEq, Eq)]
pub struct Overflow;

impl Overflow {
    pub fn number(self) -> u8
        ensures { result ≡ 28 }
    {
        PASSES_64_BITS
    }
}

impl fmt::Display for Overflow {
    fn fmt<W: fmt::Write>(&self, f: &mut fmt::Formatter<W>) -> fmt::Result {
        f.write_str("refused 28, a total would pass 64 bits")
    }
}

impl Error for Overflow {}

// The sheet with one schedule more, if no total passes 64 bits.
fn with_entry(sheet: Sheet, entry: Entry) -> Option<Sheet>
    requires { entry.refusal < 32 }
    ensures { SomeIff result (SheetRoom sheet entry) (entered sheet entry) }
{
    let number = usize::from(entry.refusal);
    let mut next = Sheet {
        schedules: sheet.schedules.checked_add(1)?,
        history: sheet.history.checked_plus(entry.history)?,
        traffic: sheet.traffic.checked_plus(entry.traffic)?,
        ..sheet
    };
    next.files[number] = sheet.files[number].checked_add(1)?;
    Some(next)
}

// The sheet with one schedule more, if no total passes 64 bits.
pub fn enter(sheet: Sheet, entry: Entry) -> Result<Sheet, Overflow>
    requires { entry.refusal < 32 }
    ensures { added_reply sheet result ≡ added_or28 sheet entry }
{
    with_entry(sheet, entry).ok_or(Overflow)
}
