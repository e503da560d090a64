// The whole text of a sheet.
ghost use Rattle.std.specs.Prelude.{◌+◌, ◌≤◌, length};
ghost use Rattle.text.specs.Paged.{Room, Adds};
ghost use Rattle.text.specs.Written.{Wrote};
ghost use Rattle.sheet_text.specs.SheetText.{sheet_text};
ghost use Rattle.sheet_text.specs.TextParts.{head_text, rest_text};

use crate::lines::{
    put_operations_line, put_refused_lines, put_schedules_line, put_traffic_line, put_wait_line,
};
use figures::Sheet;
use text::page::Page;

// How many there were, and how many were refused by file.
fn put_head(page: &mut Page<'_>, sheet: &Sheet)
    requires { Room 1116 page.old }
    ensures { Adds (head_text sheet.now) 1116 page.old page.new }
{
    put_schedules_line(page, sheet.schedules);
    put_refused_lines(page, &sheet.files);
}

// What the others came to.
fn put_rest(page: &mut Page<'_>, sheet: &Sheet)
    requires { Room 293 page.old }
    ensures { Adds (rest_text sheet.now) 293 page.old page.new }
{
    put_operations_line(page, "read", sheet.history.reads);
    put_operations_line(page, "write", sheet.history.writes);
    put_traffic_line(page, sheet.traffic);
    put_wait_line(page, sheet.history.waits);
}

pub fn put_sheet(out: &mut [u8], sheet: &Sheet) -> usize
    requires { 1409 ≤ length out.old }
    ensures { Wrote 0 (sheet_text sheet.now) 1409 out.old out.new result }
{
    let mut page = Page {
        bytes: out,
        used: 0,
    };
    put_head(&mut page, sheet);
    put_rest(&mut page, sheet);
    page.used
}
