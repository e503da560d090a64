// The kinds of events: the first byte of each in a schedule file, and how many bytes it has there.
ghost use Rattle.std.specs.Prelude.{◌≡◌};
ghost use Rattle.format.specs.Kinds.{first_byte, size, kind_of, Decodes};

use state::Event;
use words::refusal::Refusal;

#[derive(Clone, Copy, Debug, PartialEq, Eq)]
pub enum Kind {
    Read = 1,
    Write = 2,
    Deliver = 3,
    Crash = 4,
    Lose = 5,
}

impl Kind {
    // Bytes of an event of this kind, its first byte included.
    pub fn size(self) -> usize
        ensures { result ≡ size self }
    {
        match self {
            Kind::Read => 3,
            Kind::Write => 11,
            Kind::Crash => 2,
            Kind::Deliver | Kind::Lose => 5,
        }
    }
}

impl From<Kind> for u8 {
    ghost from_gives = { λ kind byte. byte ≡ first_byte kind };

    fn from(kind: Kind) -> u8 {
        kind as u8
    }
}

impl TryFrom<u8> for Kind {
    type Error = Refusal;

    ghost try_from_gives = { Decodes };

    fn try_from(byte: u8) -> Result<Self, Refusal> {
        match byte {
            1 => Ok(Kind::Read),
            2 => Ok(Kind::Write),
            3 => Ok(Kind::Deliver),
            4 => Ok(Kind::Crash),
            5 => Ok(Kind::Lose),
            _ => Err(Refusal::Unknown),
        }
    }
}

impl From<Event> for Kind {
    ghost from_gives = { λ event kind. kind ≡ kind_of event };

    fn from(event: Event) -> Kind {
        match event {
            Event::Read(_, _) => Kind::Read,
            Event::Write(_, _, _) => Kind::Write,
            Event::Deliver(_) => Kind::Deliver,
            Event::Crash(_) => Kind::Crash,
            Event::Lose(_) => Kind::Lose,
        }
    }
}
