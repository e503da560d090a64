// The words that everything else is said in: what is counted, what is stored, what is sent. With them their small rules: how stamps are
// compared, how repliers are counted, which numbers are inside document 01's ranges. All by value, and every function is total.
#![tactic(auto)]

ghost use Rattle.std.specs.Prelude.{◌≡◌};
ghost use Rattle.words.specs.Messages.{empty_message, sender_of};

pub mod limits;
pub mod quorum;
pub mod ranges;
pub mod refusal;
pub mod stamps;

// Logical times, request numbers and process numbers are counted apart (lt, rid and i of Algorithm 1), and none is taken for another.
#[repr(C)]
#[derive(Clone, Copy, Debug, Default, PartialEq, Eq, PartialOrd, Ord)]
pub struct Time(pub u32);

#[repr(C)]
#[derive(Clone, Copy, Debug, Default, PartialEq, Eq)]
pub struct Rid(pub u32);

#[repr(C)]
#[derive(Clone, Copy, Debug, Default, PartialEq, Eq, PartialOrd, Ord)]
pub struct Pid(pub u8);

// The order of the fields is the order of stamps: by time, then by process.
#[repr(C)]
#[derive(Clone, Copy, Debug, Default, PartialEq, Eq, PartialOrd, Ord)]
pub struct Stamp {
    pub time: Time,
    pub process: Pid,
}

// The default is the starting pair, ((0, 0), 0).
#[repr(C)]
#[derive(Clone, Copy, Debug, Default, PartialEq, Eq)]
pub struct Pair {
    pub stamp: Stamp,
    pub value: i64,
}

// What a message says: a register; a stamp and a value; all three; or nothing.
#[derive(Clone, Copy, Debug, PartialEq, Eq)]
pub enum Body {
    Query(u8),
    Response(Pair),
    Update(u8, Pair),
    Ack,
}

// What a receiver reads of an envelope: who sent it and when, and the number of the request.
#[derive(Clone, Copy, Debug, Default, PartialEq, Eq)]
pub struct Sender {
    pub from: Pid,
    pub time: Time,
    pub rid: Rid,
}

// The envelope, and the body inside.
#[repr(C)]
#[derive(Clone, Copy, Debug, PartialEq, Eq)]
pub struct Message {
    pub number: u32,
    pub from: Pid,
    pub to: Pid,
    pub time: Time,
    pub rid: Rid,
    pub body: Body,
}

// The message of an unused place: a query, all fields 0.
impl Default for Message {
    ghost is_default = { λ m. m ≡ empty_message };

    fn default() -> Message {
        Message {
            number: 0,
            from: Pid(0),
            to: Pid(0),
            time: Time(0),
            rid: Rid(0),
            body: Body::Query(0),
        }
    }
}

impl Message {
    pub fn sender(self) -> Sender
        ensures { result ≡ sender_of self }
    {
        Sender {
            from: self.from,
            time: self.time,
            rid: self.rid,
        }
    }
}
