// The lines of a sheet, each written onto a page.
ghost use Rattle.std.specs.Prelude.{◌+◌, ◌≤◌, length};
ghost use Rattle.text.specs.Paged.{Room, Adds};
ghost use Rattle.sheet_text.specs.SheetText.{
  schedules_line,
  refused_line,
  refused_lines,
  operations_line,
  traffic_line,
  mean,
  wait_line,
};

use figures::{NUMBERS, Operations, Traffic, Waits};
use text::lines::put_named;
use text::page::Page;

pub fn put_schedules_line(page: &mut Page<'_>, n: u64)
    requires { Room 31 page.old }
    ensures { Adds (schedules_line n) 31 page.old page.new }
{
    put_named(page, "schedules", n);
    page.put_byte(b'\n');
}

// Nothing for a number that was not met.
fn put_refused_line(page: &mut Page<'_>, k: u8, n: u64)
    requires { Room 35 page.old }
    ensures { Adds (refused_line k n) 35 page.old page.new }
{
    if n == 0 {
        return;
    }
    put_named(page, "refused", k);
    page.put_number(n);
    page.put_byte(b'\n');
}

// The numbers 1 to 31.
pub fn put_refused_lines(page: &mut Page<'_>, files: &[u64; NUMBERS])
    requires { Room 1085 page.old }
    ensures { Adds (refused_lines files.now 1 31) 1085 page.old page.new }
{
    for (i, n) in files[1..].iter().enumerate() {
        put_refused_line(page, i as u8 + 1, *n);
    }
}

pub fn put_operations_line(page: &mut Page<'_>, word: &str, o: Operations)
    requires { Room (length word.now + 43) page.old }
    ensures { Adds (operations_line word.now o) (length word.now + 43) page.old page.new }
{
    page.put_str(word);
    page.put_number(o.begun);
    page.put_number(o.completed);
    page.put_byte(b'\n');
}

pub fn put_traffic_line(page: &mut Page<'_>, t: Traffic)
    requires { Room 109 page.old }
    ensures { Adds (traffic_line t) 109 page.old page.new }
{
    put_named(page, "sent", t.sent);
    put_named(page, " delivered", t.delivered);
    put_named(page, " lost", t.lost);
    put_named(page, " left", t.left);
    page.put_byte(b'\n');
}

// The sum over the count, unrounded.
fn put_mean(page: &mut Page<'_>, w: Waits)
    requires { Room 42 page.old }
    ensures { Adds (mean w) 42 page.old page.new }
{
    page.put_number(w.sum);
    page.put_byte(b'/');
    page.put_decimal(w.count);
}

pub fn put_wait_line(page: &mut Page<'_>, w: Waits)
    requires { Room 89 page.old }
    ensures { Adds (wait_line w) 89 page.old page.new }
{
    if w.count == 0 {
        return page.put_str("wait - - -\n");
    }
    page.put_str("wait");
    put_mean(page, w);
    page.put_number(w.least);
    page.put_number(w.greatest);
    page.put_byte(b'\n');
}
