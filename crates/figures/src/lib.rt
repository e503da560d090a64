// The figures of a monthly sheet, by value: what one row comes to, sums within 64 bits, what one schedule adds, and a sheet with one schedule more.
// A sheet lies in memory as C lays it out: hosts hold it between schedules.
#![tactic(auto)]

ghost use Rattle.std.specs.Prelude.{◌≡◌};
ghost use Rattle.figures.specs.Figures.{empty_sheet};

pub mod entries;
pub mod rows;
pub mod sums;
pub mod totals;

// The operations of one kind.
#[repr(C)]
#[derive(Clone, Copy, Default)]
pub struct Operations {
    pub begun: u64,
    pub completed: u64,
}

// Response time minus invocation time over completed operations. The least and the greatest are 0 where the count is.
#[repr(C)]
#[derive(Clone, Copy, Default)]
pub struct Waits {
    pub count: u64,
    pub sum: u64,
    pub least: u64,
    pub greatest: u64,
}

// What the rows of schedules come to.
#[repr(C)]
#[derive(Clone, Copy, Default)]
pub struct History {
    pub reads: Operations,
    pub writes: Operations,
    pub waits: Waits,
}

// What the events of schedules come to.
#[repr(C)]
#[derive(Clone, Copy, Default)]
pub struct Traffic {
    pub sent: u64,
    pub delivered: u64,
    pub lost: u64,
    pub left: u64,
}

// What one schedule adds. One that is refused by file has its number and nothing else.
// A number and no Option: `enter` takes every number below 32, and `Refusal` has fewer; C counts the files of a sheet by them.
#[derive(Clone, Copy)]
pub struct Entry {
    pub refusal: u8,
    pub history: History,
    pub traffic: Traffic,
}

// How many numbers schedules are counted under.
pub const NUMBERS: usize = 32;

// All schedules so far; how many were refused by file by each number, under 0 those that were not; and what those come to.
#[repr(C)]
#[derive(Clone, Copy)]
pub struct Sheet {
    pub schedules: u64,
    pub files: [u64; NUMBERS],
    pub history: History,
    pub traffic: Traffic,
}

// A sheet that no schedule was added to.
impl Default for Sheet {
    ghost is_default = { λ sheet. sheet ≡ empty_sheet };

    fn default() -> Sheet {
        Sheet {
            schedules: 0,
            files: [0; NUMBERS],
            history: History::default(),
            traffic: Traffic::default(),
        }
    }
}

// The reply to a schedule as C has it: 0 and the sheet with it, or 28 and the sheet as it was.
#[repr(C)]
#[derive(Clone, Copy)]
pub struct Added {
    pub refusal: u8,
    pub sheet: Sheet,
}
