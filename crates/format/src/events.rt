// One event: its first byte says which, and how many bytes it has. An event that the end cuts is refused by 7, an unknown one by 6.
ghost use Rattle.std.specs.Prelude.{◌≡◌};
ghost use Rattle.format.specs.Format.{event_at};
ghost use Rattle.format.specs.Parse.{parse};

use crate::kinds::Kind;
use crate::numbers::{value_at, word_at};
use state::Event;
use words::Pid;
use words::refusal::Refusal;

// The event at a place, and the place behind it; none at the end. By a place and not by what is left: `event_at` of the specs, and the runs above, speak of places.
#[tactic(auto, unfolding(crate::specs::Format::event_at))]
pub fn event_at(bytes: &[u8], at: usize) -> Result<Option<(Event, usize)>, Refusal>
    ensures { parse result ≡ event_at bytes.now at }
{
    if bytes.len() <= at {
        return Ok(None);
    }
    let kind = Kind::try_from(bytes[at])?;
    let behind = at + kind.size();
    if bytes.len() < behind {
        return Err(Refusal::Cut);
    }
    let event = match kind {
        Kind::Read => Event::Read(Pid(bytes[at + 1]), bytes[at + 2]),
        Kind::Write => Event::Write(Pid(bytes[at + 1]), bytes[at + 2], value_at(bytes, at + 3)),
        Kind::Deliver => Event::Deliver(word_at(bytes, at + 1)),
        Kind::Crash => Event::Crash(Pid(bytes[at + 1])),
        Kind::Lose => Event::Lose(word_at(bytes, at + 1)),
    };
    Ok(Some((event, behind)))
}
