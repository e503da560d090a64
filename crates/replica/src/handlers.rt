// The handlers of one process. Each hands the replica back changed, with what it sends. None has a `requires`: what is outside its
// ranges is refused, as is an event that this replica cannot take.
ghost use Rattle.std.specs.Prelude.{◌≡◌, ◌≤◌};
ghost use Rattle.words.specs.Limits.{most_time, most_rid};
ghost use Rattle.replica.specs.Answer.{answer, answered};
ghost use Rattle.replica.specs.Handlers.{read_begun, write_begun, query_received, update_received, response_received, ack_received};
ghost use Rattle.replica.specs.Handlers.{crashed, response_counted, ack_counted};

use crate::clock::after_receiving;
use crate::{Ended, Gathered, Handled, Phase, Replica, Sends, fits, refusals};
use words::refusal::Refusal;
use words::{Body, Pair, Pid, Sender, Stamp, quorum, stamps};

impl Replica {
    pub fn begin_read(mut self, register: u8, row: u16) -> Result<Handled, Refusal>
        ensures { answer self result ≡ read_begun self register row }
    {
        refusals::check_read(self, register, row)?;
        self.clock.0 += 1;
        self.rid.0 += 1;
        self.phase = Phase::Querying(row, Gathered::default());
        Ok(self.sending(self.broadcast(Body::Query(register))))
    }

    pub fn begin_write(
        mut self,
        me: Pid,
        register: u8,
        value: i64,
        row: u16,
    ) -> Result<Handled, Refusal>
        ensures { answer self result ≡ write_begun self me register value row }
    {
        refusals::check_write(self, me, register, row)?;
        self.clock.0 += 1;
        self.rid.0 += 1;
        let stamp = Stamp {
            time: self.clock,
            process: me,
        };
        let pair = Pair { stamp, value };
        self.phase = Phase::Updating(row, pair);
        Ok(self.sending(self.broadcast(Body::Update(register, pair))))
    }

    pub fn query_received(mut self, sender: Sender, register: u8) -> Result<Handled, Refusal>
        ensures { answer self result ≡ query_received self sender.from sender.time sender.rid register }
    {
        refusals::check_query(self, sender, register)?;
        self.clock = after_receiving(self.clock, sender.time);
        let pair = fits::stored(self, register);
        Ok(self.sending(self.reply(sender, Body::Response(pair))))
    }

    pub fn update_received(
        mut self,
        sender: Sender,
        register: u8,
        pair: Pair,
    ) -> Result<Handled, Refusal>
        ensures { answer self result ≡ update_received self sender.from sender.time sender.rid register pair }
    {
        refusals::check_update(self, sender, register, pair)?;
        self.clock = after_receiving(self.clock, sender.time);
        let newest = stamps::newer_of(fits::stored(self, register), pair);
        self.pairs[usize::from(register - 1)] = newest;
        Ok(self.sending(self.reply(sender, Body::Ack)))
    }

    // A response that counts, with what its query has gathered.
    fn response_counted(
        mut self,
        n: u8,
        register: u8,
        sender: Sender,
        row: u16,
        gathered: Gathered,
    ) -> Handled
        requires { (self.clock.0 ≤ most_time) × (sender.time.0 ≤ most_time) × (self.rid.0 ≤ most_rid) }
        ensures { answered result ≡ response_counted self n register sender.from sender.time row gathered }
    {
        self.clock = after_receiving(self.clock, sender.time);
        let repliers = quorum::with(self.repliers, sender.from.0);
        if quorum::is_majority(repliers, n) {
            self.rid.0 += 1;
            self.repliers = 0;
            self.phase = Phase::Updating(row, gathered.best);
            Handled {
                replica: self,
                sends: self.broadcast(Body::Update(register, gathered.best)),
                ended: Ended::Query(repliers),
            }
        } else {
            self.repliers = repliers;
            self.phase = Phase::Querying(row, gathered);
            self.sending(Sends::Nothing)
        }
    }

    pub fn response_received(
        mut self,
        n: u8,
        register: u8,
        sender: Sender,
        pair: Pair,
    ) -> Result<Handled, Refusal>
        ensures { answer self result ≡ response_received self n register sender.from sender.time sender.rid pair }
    {
        refusals::check_response(self, n, register, sender, pair)?;
        Ok(match self.phase {
            Phase::Querying(row, gathered) if sender.rid == self.rid => {
                self.response_counted(n, register, sender, row, gathered.with(pair))
            }
            _ => self.sending(Sends::Nothing),
        })
    }

    // An ack that counts, of the pair `sent`.
    fn ack_counted(mut self, n: u8, sender: Sender, row: u16, sent: Pair) -> Handled
        requires { (self.clock.0 ≤ most_time) × (sender.time.0 ≤ most_time) × (self.rid.0 ≤ most_rid) }
        ensures { answered result ≡ ack_counted self n sender.from sender.time row sent }
    {
        self.clock = after_receiving(self.clock, sender.time);
        let repliers = quorum::with(self.repliers, sender.from.0);
        if quorum::is_majority(repliers, n) {
            self.rid.0 += 1;
            self.repliers = 0;
            self.phase = Phase::Idle;
            Handled {
                replica: self,
                sends: Sends::Nothing,
                ended: Ended::At(self.clock, sent, repliers),
            }
        } else {
            self.repliers = repliers;
            self.phase = Phase::Updating(row, sent);
            self.sending(Sends::Nothing)
        }
    }

    pub fn ack_received(mut self, n: u8, sender: Sender) -> Result<Handled, Refusal>
        ensures { answer self result ≡ ack_received self n sender.from sender.time sender.rid }
    {
        refusals::check_ack(self, n, sender)?;
        Ok(match self.phase {
            Phase::Updating(row, sent) if sender.rid == self.rid => {
                self.ack_counted(n, sender, row, sent)
            }
            _ => self.sending(Sends::Nothing),
        })
    }

    pub fn crash(mut self) -> Result<Handled, Refusal>
        ensures { answer self result ≡ crashed self }
    {
        refusals::check_crash(self)?;
        self.crashed = true;
        Ok(self.sending(Sends::Nothing))
    }
}
