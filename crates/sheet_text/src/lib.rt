// The text of a monthly sheet, written into a lent buffer.
#![tactic(auto)]

ghost use Rattle.std.specs.Prelude.{◌≡◌, ◌≤◌, IfOk, length, take};
ghost use Rattle.sheet_text.specs.SheetText.{print_left};
ghost use Rattle.sheet_text.specs.Printing.{print_result};

use figures::Sheet;
use words::refusal::Refusal;

mod lines;
mod page;

// No text of a sheet is longer.
pub const LONGEST_TEXT: usize = 1409;

// The text of a sheet, laid at the front of a lent buffer; how long it is. A buffer of fewer than 1,409 bytes is refused and left as it was.
pub fn print(sheet: Sheet, out: &mut [u8]) -> Result<usize, Refusal>
    ensures value { (result ≡ print_result sheet out.old) × (out.new ≡ print_left sheet out.old) }
    ensures upper_bound { IfOk result (λ size. (size ≤ length out.new) × (size ≡ length (take size out.new))) }
{
    if out.len() < LONGEST_TEXT {
        return Err(Refusal::ShortOutput);
    }
    Ok(page::put_sheet(out, &sheet))
}
