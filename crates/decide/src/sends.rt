// What a handler sends, as messages: how many, and the first of them.
ghost use Rattle.std.specs.Prelude.{◌≡◌, ◌≤◌};
ghost use Rattle.replica.specs.Answer.{answer as answer_of};
ghost use Rattle.replica.specs.Numbers.{sent_by};
ghost use Rattle.replica.specs.declared.Replica.{Replica};
ghost use Rattle.state.specs.Step.{message_of};
ghost use Rattle.decide.specs.PlanBy.{first_of};

use crate::Counters;
use replica::{Handled, Letter, Sends};
use words::refusal::Refusal;
use words::{Message, Pid};

fn message_of(number: u32, from: Pid, to: Pid, letter: Letter) -> Message
    ensures { result ≡ message_of number from.0 to.0 letter }
{
    Message {
        number,
        from,
        to,
        time: letter.time,
        rid: letter.rid,
        body: letter.body,
    }
}

impl Counters {
    // How many messages an answer sends; a refusal sends none.
    pub(crate) fn count_of(self, answer: Result<Handled, Refusal>) -> u8
        ensures { (r : Replica) → result ≡ sent_by self.n (answer_of r answer).sends }
    {
        match answer {
            Ok(handled) => match handled.sends {
                Sends::Nothing => 0,
                Sends::Reply(_, _) => 1,
                Sends::Broadcast(_) => self.n,
            },
            Err(_) => 0,
        }
    }

    // The first message, and how many there are.
    pub(crate) fn posted_by(self, from: Pid, sends: Sends) -> Option<(Message, u8)>
        requires { self.sent ≤ 84000 }
        ensures { result ≡ first_of self from sends }
    {
        let number = self.sent + 1;
        match sends {
            Sends::Nothing => None,
            Sends::Reply(to, letter) => Some((message_of(number, from, to, letter), 1)),
            Sends::Broadcast(letter) => Some((message_of(number, from, Pid(1), letter), self.n)),
        }
    }
}
