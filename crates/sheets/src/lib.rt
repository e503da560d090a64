// A monthly sheet in exact numbers: what many schedules come to, one added after another. A sheet goes by value; the tables of a schedule's run are made here and given up.
#![tactic(auto)]

ghost use Rattle.std.specs.Prelude.{◌≡◌, ◌≤◌, length};
ghost use Rattle.figures.specs.Figures.{history_of};
ghost use Rattle.figures.specs.Replies.{added_reply};
ghost use Rattle.sheets.specs.Sheet.{added_by, added};

use figures::rows::of_row;
use figures::sums::Total;
use figures::totals::{Overflow, enter};
use figures::{Entry, History, Sheet};
use replaying::run_history;
use tables::Row;
use words::limits::ROW_PLACES;

// What the rows of a history come to.
fn count_rows(rows: &[Row]) -> History
    requires { length rows.now ≤ 1024 }
    ensures { result ≡ history_of rows.now }
{
    let mut history = History::default();
    for row in rows {
        history = history.plus(of_row(*row));
    }
    history
}

// What one schedule adds. The tables of its run are needed no longer than this.
fn count_file(bytes: &[u8]) -> Entry
    ensures { result ≡ added_by bytes.now }
{
    let mut rows = [Row::default(); ROW_PLACES];
    match run_history(&mut rows, bytes) {
        Ok(ran) => {
            let used = usize::from(ran.bench.rows);
            Entry::of_run(ran.bench, count_rows(&rows[..used]))
        }
        Err(refusal) => Entry::refused(refusal.number()),
    }
}

// A schedule is added to a sheet. Where a total would pass 64 bits it is refused by 28.
pub fn add(sheet: Sheet, bytes: &[u8]) -> Result<Sheet, Overflow>
    ensures { added_reply sheet result ≡ added sheet bytes.now }
{
    enter(sheet, count_file(bytes))
}
