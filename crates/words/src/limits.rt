// Every limit, named once: document 01's, of a bench; and those of one replica by itself.

// Processes and registers.
pub const PROCESSES: u8 = 7;

pub const REGISTERS: u8 = 16;

// Accepted events of a bench.
pub const EVENTS: u16 = 12000;

// Messages in flight, and rows of the history; and the places of the two tables that are lent for them.
pub const FLIGHT: u16 = 512;

pub const MESSAGE_PLACES: usize = FLIGHT as usize;

pub const ROWS: u16 = 1024;

pub const ROW_PLACES: usize = ROWS as usize;

// A replica's times and request numbers, whoever joins it to others. One more still fits.
pub const MOST_TIME: u32 = 4000000000;

pub const MOST_RID: u32 = 4000000000;
