// The clock, and its rule on receiving: larger of own and sender's time, plus 1. All of it takes a `Time`, so that no request number is ever
// compared with a clock. The handlers call `after_receiving`.
ghost use Rattle.std.specs.Prelude.{◌≡◌, ◌≤◌};
ghost use Rattle.words.specs.Limits.{most_time};
ghost use Rattle.replica.specs.Clock.{after_time, clock_after};

use words::Time;

// A struct of one field, lent by `&mut`: document 01 binds the form, a clock that is lent to a thin layer over a rule of plain numbers.
#[derive(Clone, Copy, Debug, PartialEq, Eq)]
pub struct Clock {
    pub time: Time,
}

// The rule, of two times.
fn later(own: Time, sent: Time) -> Time
    requires { (own.0 ≤ most_time) × (sent.0 ≤ most_time) }
    ensures { result ≡ after_time own sent }
{
    Time(own.0.max(sent.0) + 1)
}

// A clock that is lent goes by the rule.
pub fn receive(clock: &mut Clock, time: Time)
    requires { (clock.old.time.0 ≤ most_time) × (time.0 ≤ most_time) }
    ensures { clock.new ≡ clock_after clock.old time }
{
    clock.time = later(clock.time, time);
}

// The same for callers that have no clock to lend: a clock's time and a message's in, the clock's next time out.
pub fn after_receiving(own: Time, sent: Time) -> Time
    requires { (own.0 ≤ most_time) × (sent.0 ≤ most_time) }
    ensures { result ≡ after_time own sent }
{
    let mut clock = Clock { time: own };
    receive(&mut clock, sent);
    clock.time
}
