// The static library of the C interface: each function of capi, exported under its own name. In C a slice is a pointer and then a length (include/wagonmoth.h).
// The C interface needs each twice: a static library exports only functions of its own.
#![tactic(auto)]

ghost use Rattle.std.specs.Prelude.{◌≡◌, ◌+◌, ◌*◌};
ghost use Rattle.replaying.specs.Replayed.{replay_reply, replay_left};
ghost use Rattle.verdicts.specs.Verdict.{verdict_of};
ghost use Rattle.figures.specs.Figures.{empty_sheet};
ghost use Rattle.sheets.specs.Sheet.{added};
ghost use Rattle.sheet_text.specs.SheetText.{print_reply, print_left};

use figures::{Added, Sheet};

// The text of a replay.
#[unsafe(no_mangle)]
pub extern "C" fn wagonmoth_replay(bytes: &[u8], out: &mut [u8]) -> usize
    ensures { (result ≡ replay_reply bytes.now out.old) × (out.new ≡ replay_left bytes.now out.old) }
{
    capi::wagonmoth_replay(bytes, out)
}

// No text of a replay is longer.
#[unsafe(no_mangle)]
pub extern "C" fn wagonmoth_longest_text() -> usize
    ensures { result ≡ 81563 }
{
    capi::wagonmoth_longest_text()
}

// Whether the order in a history file explains it: 0, or the number of the refusal.
#[unsafe(no_mangle)]
pub extern "C" fn wagonmoth_verdict(bytes: &[u8]) -> u8
    ensures { result ≡ verdict_of bytes.now }
{
    capi::wagonmoth_verdict(bytes)
}

// A sheet that no schedule was added to.
#[unsafe(no_mangle)]
pub extern "C" fn wagonmoth_empty_sheet() -> Sheet
    ensures { result ≡ empty_sheet }
{
    capi::wagonmoth_empty_sheet()
}

// A sheet with one schedule more, or 28 and the sheet as it was.
#[unsafe(no_mangle)]
pub extern "C" fn wagonmoth_add_schedule(sheet: Sheet, bytes: &[u8]) -> Added
    ensures { result ≡ added sheet bytes.now }
{
    capi::wagonmoth_add_schedule(sheet, bytes)
}

// The text of a sheet.
#[unsafe(no_mangle)]
pub extern "C" fn wagonmoth_print_sheet(sheet: Sheet, out: &mut [u8]) -> usize
    ensures { (result ≡ print_reply sheet out.old) × (out.new ≡ print_left sheet out.old) }
{
    capi::wagonmoth_print_sheet(sheet, out)
}

// No text of a sheet is longer.
#[unsafe(no_mangle)]
pub extern "C" fn wagonmoth_longest_sheet() -> usize
    ensures { result ≡ 1409 }
{
    capi::wagonmoth_longest_sheet()
}

// The one number by which stamps are compared.
#[unsafe(no_mangle)]
pub extern "C" fn wagonmoth_rank(time: u32, process: u8) -> u64
    ensures { result ≡ time * 8 + process }
{
    capi::wagonmoth_rank(time, process)
}
