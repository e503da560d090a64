// Why an event, a schedule or an output is refused. Document 01 numbers the refusals from 1; its 0 is accepted.
ghost use Rattle.std.specs.Prelude.{◌≡◌};
ghost use Rattle.words.specs.Refusals.{number};

#[derive(Clone, Copy, Debug, PartialEq, Eq)]
pub enum Refusal {
    // Of a schedule: shorter than 7 or longer than 65,536 bytes; its length field wrong; its version not 1.
    WrongSize = 1,
    WrongLength = 2,
    WrongVersion = 3,
    // N not 1 to 7, M not 1 to 16.
    NoProcesses = 4,
    NoRegisters = 5,
    // Unknown event byte; event cut by the end.
    Unknown = 6,
    Cut = 7,
    // Process not 1 to N, register not 1 to M.
    NoProcess = 8,
    NoRegister = 9,
    // Process has crashed; process has an operation pending.
    Crashed = 10,
    Pending = 11,
    // No such message in flight.
    NoMessage = 12,
    RecipientCrashed = 13,
    // Neither end has crashed.
    BothUp = 14,
    // Messages in flight would pass 512.
    NoRoom = 15,
    // No history row free.
    NoRow = 16,
    // 12,000 events already accepted.
    Full = 17,
    // State not well formed, or a lent table of another length than stated; of one replica: outside its ranges.
    NotFormed = 18,
    // An output has no room for what is to be written.
    ShortOutput = 19,
}

impl Refusal {
    // Document 01's number.
    pub fn number(self) -> u8
        ensures { result ≡ number self }
    {
        self as u8
    }
}
