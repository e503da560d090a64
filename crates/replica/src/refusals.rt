// Why a handler refuses: outside the ranges; then a replica that has crashed, and for an invocation one that has an operation pending.
ghost use Rattle.std.specs.Prelude.{◌≡◌};
ghost use Rattle.words.specs.Refusals.{number, refusal_number};
ghost use Rattle.replica.specs.Handlers.{
  begin_refusal,
  down_refusal,
  read_refusal,
  write_refusal,
  request_fits,
  query_refusal,
  update_refusal,
  reply_fits,
  response_refusal,
  ack_refusal,
  crash_refusal,
};

use crate::Replica;
use crate::fits::{replica_fits, stored_fits};
use crate::phases::is_idle;
use words::limits::{MOST_TIME, PROCESSES, REGISTERS};
use words::ranges::{is_within, pair_fits, row_fits, sender_fits};
use words::refusal::Refusal;
use words::{Pair, Pid, Sender};

// Why an operation is not begun.
#[tactic(auto, unfolding(crate::specs::Handlers::begin_refusal))]
fn check_begin(fits: bool, crashed: bool, idle: bool) -> Result<(), Refusal>
    ensures { refusal_number result ≡ begin_refusal fits crashed idle }
{
    if !fits {
        Err(Refusal::NotFormed)
    } else if crashed {
        Err(Refusal::Crashed)
    } else if idle {
        Ok(())
    } else {
        Err(Refusal::Pending)
    }
}

// Why a message is not received, or a crash not taken: `down` stands for a replica that is down.
#[tactic(auto, unfolding(crate::specs::Handlers::down_refusal))]
fn check_up(down: Refusal, fits: bool, crashed: bool) -> Result<(), Refusal>
    ensures { refusal_number result ≡ down_refusal (number down) fits crashed }
{
    if !fits {
        Err(Refusal::NotFormed)
    } else if crashed {
        Err(down)
    } else {
        Ok(())
    }
}

#[tactic(auto, unfolding(crate::specs::Handlers::read_refusal))]
pub fn check_read(r: Replica, register: u8, row: u16) -> Result<(), Refusal>
    ensures { refusal_number result ≡ read_refusal r register row }
{
    let fits = replica_fits(PROCESSES, r) & is_within(register, REGISTERS) & row_fits(row);
    check_begin(fits, r.crashed, is_idle(r.phase))
}

#[tactic(auto, unfolding(crate::specs::Handlers::write_refusal))]
pub fn check_write(r: Replica, me: Pid, register: u8, row: u16) -> Result<(), Refusal>
    ensures { refusal_number result ≡ write_refusal r me register row }
{
    let fits = replica_fits(PROCESSES, r)
        & is_within(me.0, PROCESSES)
        & is_within(register, REGISTERS)
        & row_fits(row);
    check_begin(fits, r.crashed, is_idle(r.phase))
}

fn request_fits(r: Replica, sender: Sender, register: u8) -> bool
    ensures { result ≡ request_fits r sender.from sender.time sender.rid register }
{
    replica_fits(PROCESSES, r) & sender_fits(PROCESSES, sender) & stored_fits(r, register)
}

#[tactic(auto, unfolding(crate::specs::Handlers::query_refusal))]
pub fn check_query(r: Replica, sender: Sender, register: u8) -> Result<(), Refusal>
    ensures { refusal_number result ≡ query_refusal r sender.from sender.time sender.rid register }
{
    let fits = request_fits(r, sender, register);
    check_up(Refusal::RecipientCrashed, fits, r.crashed)
}

#[tactic(auto, unfolding(crate::specs::Handlers::update_refusal))]
pub fn check_update(r: Replica, sender: Sender, register: u8, pair: Pair) -> Result<(), Refusal>
    ensures { refusal_number result ≡ update_refusal r sender.from sender.time sender.rid register pair }
{
    let fits = request_fits(r, sender, register) & pair_fits(pair, MOST_TIME, PROCESSES);
    check_up(Refusal::RecipientCrashed, fits, r.crashed)
}

// A reply is counted, so N is known here: the sender is one of 1 to `n`, and so are those that replied before it.
fn reply_fits(r: Replica, n: u8, sender: Sender) -> bool
    ensures { result ≡ reply_fits r n sender.from sender.time sender.rid }
{
    replica_fits(n, r) & sender_fits(n, sender) & is_within(n, PROCESSES)
}

#[tactic(auto, unfolding(crate::specs::Handlers::response_refusal))]
pub fn check_response(
    r: Replica,
    n: u8,
    register: u8,
    sender: Sender,
    pair: Pair,
) -> Result<(), Refusal>
    ensures { refusal_number result ≡ response_refusal r n register sender.from sender.time sender.rid pair }
{
    let fits = reply_fits(r, n, sender)
        & is_within(register, REGISTERS)
        & pair_fits(pair, MOST_TIME, PROCESSES);
    check_up(Refusal::RecipientCrashed, fits, r.crashed)
}

#[tactic(auto, unfolding(crate::specs::Handlers::ack_refusal))]
pub fn check_ack(r: Replica, n: u8, sender: Sender) -> Result<(), Refusal>
    ensures { refusal_number result ≡ ack_refusal r n sender.from sender.time sender.rid }
{
    let fits = reply_fits(r, n, sender);
    check_up(Refusal::RecipientCrashed, fits, r.crashed)
}

#[tactic(auto, unfolding(crate::specs::Handlers::crash_refusal))]
pub fn check_crash(r: Replica) -> Result<(), Refusal>
    ensures { refusal_number result ≡ crash_refusal r }
{
    check_up(Refusal::Crashed, replica_fits(PROCESSES, r), r.crashed)
}
