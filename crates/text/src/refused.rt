// The line of a refusal.
ghost use Rattle.std.specs.Prelude.{◌+◌, ◌≤◌, length};
ghost use Rattle.words.specs.Refusals.{number as refusal_number};
ghost use Rattle.text.specs.Paged.{Room, Adds};
ghost use Rattle.text.specs.Printed.{number, printed_refusal};
ghost use Rattle.text.specs.Written.{Wrote};

use crate::page::Page;
use words::refusal::Refusal;

// By its number, which may be one of a history's (docs/JUDGING.md).
pub fn put_refused(page: &mut Page<'_>, number: u8)
    requires { Room 14 page.old }
    ensures { Adds (printed_refusal number) 14 page.old page.new }
{
    page.put_str("refused");
    page.put_number(number);
    page.put_byte(b'\n');
}

pub fn put_refusal(page: &mut Page<'_>, refusal: Refusal)
    requires { Room 14 page.old }
    ensures { Adds (printed_refusal (refusal_number refusal)) 14 page.old page.new }
{
    put_refused(page, refusal.number());
}

// The line by itself, at the front of a lent buffer; how long it is.
pub fn refusal_text(out: &mut [u8], refusal: Refusal) -> usize
    requires { 14 ≤ length out.old }
    ensures { Wrote 0 (printed_refusal (refusal_number refusal)) 14 out.old out.new result }
{
    let mut page = Page {
        bytes: out,
        used: 0,
    };
    put_refusal(&mut page, refusal);
    page.used
}
