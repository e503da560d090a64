// Why a history file is refused. Document 02 numbers the faults from 22; 0 is accepted.
ghost use Rattle.std.specs.Prelude.{◌≡◌};
ghost use Rattle.verdicts.specs.Faults.{number};

#[derive(Clone, Copy, Debug, PartialEq, Eq)]
pub enum Fault {
    // The layout or its limits are broken, bytes are left over, or a row comes after an unfinished one of its process.
    NoFile = 22,
    // A row number is unknown or repeated.
    NumberWrong = 23,
    // An unfinished read stands in the order.
    ReadNamed = 24,
    // A completed row doesn't.
    RowMissing = 25,
    // The rows of a process stand in another sequence.
    SequenceBroken = 26,
    // A read has another value than its register holds.
    ReadWrong = 27,
}

impl Fault {
    // Document 02's number.
    pub fn number(self) -> u8
        ensures { result ≡ number self }
    {
        self as u8
    }
}
