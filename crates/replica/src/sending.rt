// What a handler answers with: the next replica and what it sends.
ghost use Rattle.std.specs.Prelude.{◌≡◌};
ghost use Rattle.replica.specs.Handlers.{broadcast_of, reply_of};
ghost use Rattle.replica.specs.Answer.{handled};
ghost use Rattle.replica.specs.declared.Ended.TheVariants.{Pending};

use crate::{Ended, Handled, Letter, Replica, Sends};
use words::{Body, Sender};

impl Replica {
    // No phase ended.
    pub(crate) fn sending(self, sends: Sends) -> Handled
        ensures { result ≡ handled self sends Pending }
    {
        Handled {
            replica: self,
            sends,
            ended: Ended::Pending,
        }
    }

    pub(crate) fn broadcast(self, body: Body) -> Sends
        ensures { result ≡ broadcast_of self.clock.0 self.rid.0 body }
    {
        Sends::Broadcast(Letter {
            time: self.clock,
            rid: self.rid,
            body,
        })
    }

    // A reply bears the request's number.
    pub(crate) fn reply(self, sender: Sender, body: Body) -> Sends
        ensures { result ≡ reply_of sender.from self.clock.0 sender.rid.0 body }
    {
        let letter = Letter {
            time: self.clock,
            rid: sender.rid,
            body,
        };
        Sends::Reply(sender.from, letter)
    }
}
