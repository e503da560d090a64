// A history file as it lies in memory, cut into its rows and its row numbers.
ghost use Rattle.std.specs.Prelude.{◌≡◌, true, ◌≤◌, length};
ghost use Rattle.verdicts.specs.Verdict.{inside};
ghost use Rattle.verdicts.specs.Rows.{rows_of, numbers_of, AllFormed};

use crate::rows::{NUMBER_SIZE, ROW_SIZE};

// Each row has a kind and a mark of completion; the order may hold any numbers.
#[derive(Clone, Copy)]
pub struct History<'a> {
    pub rows: &'a [[u8; ROW_SIZE]],
    pub order: &'a [[u8; NUMBER_SIZE]],
    ghost few: { length rows.now ≤ 1024 },
    ghost formed: { AllFormed (rows_of rows.now) },
}

// A history whose order names rows of its alone.
#[derive(Clone, Copy)]
pub struct Known<'a> {
    pub history: History<'a>,
    ghost named: { inside (length history.rows.now) (numbers_of history.order.now) ≡ true },
}
