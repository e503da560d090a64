// The two lent tables, of messages and of rows of the history, and the few thin functions over them. No rule of the method stands here:
// what is stored is decided elsewhere, by value.
#![tactic(auto)]

ghost use Rattle.std.specs.Prelude.{◌≡◌, ◌+◌, ◌≤◌, ◌<◌, ◌∷◌, ◌++◌, length, set, take, drop};
ghost use Rattle.tables.specs.Tables.{empty_message, empty_row, nobody, seek, removed, following, copies, laid_at};

use words::{Message, Pid, Rid, Stamp, Time};

#[derive(Clone, Copy, Debug, PartialEq, Eq)]
pub enum Kind {
    Read,
    Write,
}

// Who replied: the processes whose replies ended the query phase, and those whose replies ended the update phase, a byte each (process i is
// bit i). Nobody until that phase ends.
#[derive(Clone, Copy, Debug, PartialEq, Eq)]
pub struct Replied {
    pub query: u8,
    pub update: u8,
}

// Fields lie in memory as they are written: what is of one byte comes first, and a row has 32.
#[derive(Clone, Copy, Debug, PartialEq, Eq)]
pub struct Row {
    pub process: Pid,
    pub kind: Kind,
    pub register: u8,
    pub replied: Replied,
    pub invoked: Time,
    pub answered: Time,
    pub stamp: Stamp,
    pub value: i64,
}

// No phase has ended: nobody replied to one that has.
impl Default for Replied {
    ghost is_default = { λ replied. replied ≡ nobody };

    fn default() -> Replied {
        Replied {
            query: 0,
            update: 0,
        }
    }
}

// The row of an unused place.
impl Default for Row {
    ghost is_default = { λ row. row ≡ empty_row };

    fn default() -> Row {
        Row {
            process: Pid(0),
            kind: Kind::Read,
            register: 0,
            invoked: Time(0),
            answered: Time(0),
            stamp: Stamp {
                time: Time(0),
                process: Pid(0),
            },
            value: 0,
            replied: Replied::default(),
        }
    }
}

// A thing is stored at a place; past the end nothing is.
pub fn put<T: Copy>(t: &mut [T], i: usize, x: T)
    ensures { t.new ≡ set t.old i x }
{
    if i < t.len() {
        t[i] = x;
    }
}

// The first place below n whose message has the number k.
pub fn find(t: &[Message], n: usize, k: u32) -> Option<usize>
    requires { n ≤ length t.now }
    ensures { result ≡ seek k 0 (take n t.now) }
{
    t[..n].iter().position(|m| m.number == k)
}

// A message is taken out of the first n: each later one moves one place down, and the last place is emptied.
pub fn take_off(t: &mut [Message], at: usize, n: usize)
    requires { (at < n) × (n ≤ length t.old) }
    ensures { t.new ≡ removed at (take n t.old) ++ (empty_message ∷ drop n t.old) }
{
    t.copy_within(at + 1..n, at);
    t[n - 1] = Message::default();
}

// The same message with the next number, to the next process.
pub fn next_copy(m: Message) -> Message
    requires { (m.number + 1 < 4294967296) × (m.to.0 + 1 < 256) }
    ensures { result ≡ following m }
{
    Message {
        number: m.number + 1,
        to: Pid(m.to.0 + 1),
        ..m
    }
}

// Copies of a message are laid from a place on, numbered and addressed one after another.
pub fn post(t: &mut [Message], at: usize, count: u8, first: Message)
    requires { (at + count ≤ length t.old) × ((first.number + count < 4294967296) × (first.to.0 + count < 256)) }
    ensures { t.new ≡ laid_at at (copies first count) t.old }
{
    let mut m = first;
    for place in &mut t[at..at + count as usize] {
        *place = m;
        m = next_copy(m);
    }
}
