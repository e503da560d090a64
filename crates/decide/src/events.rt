// The plan of each event, by what was gathered for it.
ghost use Rattle.std.specs.Prelude.{◌≡◌, ◌≤◌, false};
ghost use Rattle.replica.specs.Answer.{answer, answered};
ghost use Rattle.decide.specs.Checks.{full};
ghost use Rattle.decide.specs.Plan.{seen, numbered, begun, plan_of};
ghost use Rattle.decide.specs.PlanBy.{accepted_by, answer_to, invoke_by, deliver_by, crash_by, lose_by, plan_by};

use crate::checks::is_over;
use crate::{Counters, Plan, View, gather, rows};
use replica::{Handled, Replica, phases};
use state::Event;
use tables::Row;
use words::refusal::Refusal;
use words::{Body, Message, Pid};

fn begin(r: Replica, p: Pid, x: u8, number: u16, written: Option<i64>) -> Result<Handled, Refusal>
    ensures { answer r result ≡ begun r p x number written }
{
    match written {
        None => r.begin_read(x, number),
        Some(value) => r.begin_write(p, x, value, number),
    }
}

// What the recipient answers to a message, of n processes, where it asks for a register.
fn heard(n: u8, asked: u8, r: Replica, message: Message) -> Result<Handled, Refusal>
    ensures { answer r result ≡ answer_to n asked r message }
{
    let sender = message.sender();
    match message.body {
        Body::Query(x) => r.query_received(sender, x),
        Body::Response(pair) => r.response_received(n, asked, sender, pair),
        Body::Update(x, pair) => r.update_received(sender, x, pair),
        Body::Ack => r.ack_received(n, sender),
    }
}

impl Counters {
    // What p's handler says is carried out, the message that it answers is taken off, if it answers one, and a row is written.
    fn accept(
        self,
        p: Pid,
        taken: Option<usize>,
        handled: Handled,
        row: Option<(usize, Row)>,
    ) -> Plan
        requires { self.sent ≤ 84000 }
        ensures { result ≡ accepted_by self p taken (answered handled) row }
    {
        Plan {
            replica: Some((p, handled.replica)),
            taken,
            posted: self.posted_by(p, handled.sends),
            row,
        }
    }

    // An operation begins: a read, or the write of a value.
    #[tactic(auto, unfolding(crate::specs::PlanBy::invoke_by))]
    fn invoke_plan(self, p: Pid, x: u8, written: Option<i64>, r: Replica) -> Result<Plan, Refusal>
        requires { (self.sent ≤ 84000) × (self.rows ≤ 1024) × (full self ≡ false) }
        ensures { numbered result ≡ invoke_by self p x written r }
    {
        self.may_invoke(p, x, r)?;
        let number = self.rows as u16 + 1;
        let handled = begin(r, p, x, number, written)?;
        let row = rows::begun_row(p, x, handled.replica.clock, written);
        Ok(self.accept(p, None, handled, Some((self.rows, row))))
    }

    #[tactic(auto, unfolding(crate::specs::PlanBy::deliver_by))]
    fn deliver_plan(
        self,
        found: Option<usize>,
        message: Message,
        r: Replica,
        row: Row,
    ) -> Result<Plan, Refusal>
        requires { (self.sent ≤ 84000) × (full self ≡ false) }
        ensures { numbered result ≡ deliver_by self found message r row }
    {
        let Some(at) = found else {
            return Err(Refusal::NoMessage);
        };
        if r.crashed {
            return Err(Refusal::RecipientCrashed);
        }
        let asked = rows::asked_register(r.phase, row);
        let answer = heard(self.n, asked, r, message);
        let left = self.flight.saturating_sub(1);
        if is_over(left, self.count_of(answer)) {
            return Err(Refusal::NoRoom);
        }
        let handled = answer?;
        let row = rows::written_by(row, r.phase, handled.ended);
        Ok(self.accept(message.to, Some(at), handled, row))
    }

    #[tactic(auto, unfolding(crate::specs::PlanBy::crash_by))]
    fn crash_plan(self, p: Pid, r: Replica) -> Result<Plan, Refusal>
        requires { (self.sent ≤ 84000) × (full self ≡ false) }
        ensures { numbered result ≡ crash_by self p r }
    {
        self.may_crash(p, r)?;
        let handled = r.crash()?;
        Ok(self.accept(p, None, handled, None))
    }

    // A lost message changes no replica; `down`: one of its two ends has crashed.
    #[tactic(auto, unfolding(crate::specs::PlanBy::lose_by))]
    fn lose_plan(self, found: Option<usize>, down: bool) -> Result<Plan, Refusal>
        requires { full self ≡ false }
        ensures { numbered result ≡ lose_by self found down }
    {
        let Some(at) = found else {
            return Err(Refusal::NoMessage);
        };
        if !down {
            return Err(Refusal::BothUp);
        }
        Ok(Plan {
            replica: None,
            taken: Some(at),
            posted: None,
            row: None,
        })
    }
}

// The event's plan, by the counts, the message that was found for it and its place, whether one of that message's ends is down, the replica that
// takes its step, and the row that this points to.
#[tactic(auto, using(crate::proofs::FullLaws::full_by), unfolding(crate::specs::PlanBy::plan_by))]
pub fn plan_of(
    c: Counters,
    event: Event,
    found: Option<usize>,
    message: Message,
    down: bool,
    r: Replica,
    row: Row,
) -> Result<Plan, Refusal>
    requires { (c.sent ≤ 84000) × (c.rows ≤ 1024) }
    ensures { numbered result ≡ plan_by c event found message down r row }
{
    if c.is_full() {
        return Err(Refusal::Full);
    }
    match event {
        Event::Read(p, x) => c.invoke_plan(p, x, None, r),
        Event::Write(p, x, value) => c.invoke_plan(p, x, Some(value), r),
        Event::Deliver(_) => c.deliver_plan(found, message, r, row),
        Event::Crash(p) => c.crash_plan(p, r),
        Event::Lose(_) => c.lose_plan(found, down),
    }
}

impl View<'_> {
    // What the event needs is looked up, and its plan made by that.
    #[tactic(auto, using(crate::proofs::GatherLaws::gathered_plan))]
    pub fn plan_of(self, event: Event) -> Result<Plan, Refusal>
        ensures { numbered result ≡ plan_of (seen self.entry) event }
    {
        let (found, message) = self.sought(event);
        let down = self.is_down(message);
        let r = self.replica(gather::process_of(event, message));
        let row = self.row(phases::pointed_by(r.phase));
        plan_of(self.counters(), event, found, message, down, r, row)
    }
}
