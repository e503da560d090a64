// The C interface: functions over numbers and bytes, each the function that it wraps. The crate capi_c exports them under the same names.
#![tactic(auto)]

ghost use Rattle.std.specs.Prelude.{◌≡◌, ◌+◌, ◌*◌};
ghost use Rattle.replaying.specs.Replayed.{replay_reply, replay_left};
ghost use Rattle.verdicts.specs.Verdict.{verdict_of};
ghost use Rattle.figures.specs.Figures.{empty_sheet};
ghost use Rattle.sheets.specs.Sheet.{added};
ghost use Rattle.sheet_text.specs.SheetText.{print_reply, print_left};

use figures::{Added, Sheet};
use words::stamps::rank_of;
use words::{Pid, Stamp, Time};

// The text of a replay.
pub fn wagonmoth_replay(bytes: &[u8], out: &mut [u8]) -> usize
    ensures { (result ≡ replay_reply bytes.now out.old) × (out.new ≡ replay_left bytes.now out.old) }
{
    match replaying::replay(bytes, out) {
        Ok(size) => size,
        Err(_) => 0,
    }
}

// No text of a replay is longer.
pub fn wagonmoth_longest_text() -> usize
    ensures { result ≡ 81563 }
{
    replaying::LONGEST_TEXT
}

// Whether the order in a history file explains it: 0, or the number of the refusal.
pub fn wagonmoth_verdict(bytes: &[u8]) -> u8
    ensures { result ≡ verdict_of bytes.now }
{
    match verdicts::verdict(bytes) {
        Ok(()) => 0,
        Err(fault) => fault.number(),
    }
}

// A sheet that no schedule was added to.
pub fn wagonmoth_empty_sheet() -> Sheet
    ensures { result ≡ empty_sheet }
{
    Sheet::default()
}

// A sheet with one schedule more, or 28 and the sheet as it was.
pub fn wagonmoth_add_schedule(sheet: Sheet, bytes: &[u8]) -> Added
    ensures { result ≡ added sheet bytes.now }
{
    match sheets::add(sheet, bytes) {
        Ok(next) => Added {
            refusal: 0,
            sheet: next,
        },
        Err(overflow) => Added {
            refusal: overflow.number(),
            sheet,
        },
    }
}

// The text of a sheet.
pub fn wagonmoth_print_sheet(sheet: Sheet, out: &mut [u8]) -> usize
    ensures { (result ≡ print_reply sheet out.old) × (out.new ≡ print_left sheet out.old) }
{
    sheet_text::print(sheet, out).unwrap_or(0)
}

// No text of a sheet is longer.
pub fn wagonmoth_longest_sheet() -> usize
    ensures { result ≡ 1409 }
{
    sheet_text::LONGEST_TEXT
}

// The one number by which stamps are compared.
pub fn wagonmoth_rank(time: u32, process: u8) -> u64
    ensures { result ≡ time * 8 + process }
{
    rank_of(Stamp {
        time: Time(time),
        process: Pid(process),
    })
}
