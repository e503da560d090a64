// The line of a row of the history.
ghost use Rattle.std.specs.Prelude.{◌≡◌, ◌+◌, ◌≤◌, length, [], ◌∷◌};
ghost use Rattle.text.specs.Lines.{pair_text, row_head, row_rest};
ghost use Rattle.text.specs.Paged.{Room, Adds};
ghost use Rattle.text.specs.Printed.{field, letter_of, answered, ending, row_line};
ghost use Rattle.text.specs.Short.{Short, ShortRow};

use crate::page::Page;
use tables::{Kind, Row};
use words::{Pair, Time};

fn put_letter(page: &mut Page<'_>, kind: Kind)
    requires { Room 2 page.old }
    ensures { Adds (field (letter_of kind ∷ [])) 2 page.old page.new }
{
    match kind {
        Kind::Read => page.put_str(" r"),
        Kind::Write => page.put_str(" w"),
    }
}

pub fn put_pair(page: &mut Page<'_>, pair: Pair)
    requires { Room 33 page.old × Short pair.stamp.time.0 }
    ensures { Adds (pair_text pair.stamp pair.value) 33 page.old page.new }
{
    page.put_time(pair.stamp.time);
    page.put_number(pair.stamp.process.0);
    page.put_value(pair.value);
}

// A dash stands for a time that is not there.
fn put_answered(page: &mut Page<'_>, time: Time)
    requires { Room 6 page.old × Short time.0 }
    ensures { Adds (answered time.0) 6 page.old page.new }
{
    if time.0 == 0 {
        page.put_str(" -");
    } else {
        page.put_time(time);
    }
}

// A pending read has neither stamp nor value yet.
fn put_ending(page: &mut Page<'_>, row: &Row)
    requires { Room 33 page.old × Short row.now.stamp.time.0 }
    ensures { Adds (ending row.now.kind row.now.answered.0 row.now) 33 page.old page.new }
{
    match row.kind {
        Kind::Read if row.answered.0 == 0 => page.put_str(" - - -"),
        _ => put_pair(
            page,
            Pair {
                stamp: row.stamp,
                value: row.value,
            },
        ),
    }
}

fn put_row_head(page: &mut Page<'_>, number: u16, row: &Row)
    requires { Room 16 page.old }
    ensures { Adds (row_head number row.now.process.0 row.now.kind) 16 page.old page.new }
{
    page.put_str("op");
    page.put_number(number);
    page.put_number(row.process.0);
    put_letter(page, row.kind);
}

fn put_row_rest(page: &mut Page<'_>, row: &Row)
    requires { Room 52 page.old × ShortRow row.now }
    ensures { Adds (row_rest row.now) 52 page.old page.new }
{
    page.put_number(row.register);
    page.put_time(row.invoked);
    put_answered(page, row.answered);
    put_ending(page, row);
    page.put_byte(b'\n');
}

pub fn put_row_line(page: &mut Page<'_>, number: u16, row: &Row)
    requires { Room 68 page.old × ShortRow row.now }
    ensures { Adds (row_line number row.now) 68 page.old page.new }
{
    put_row_head(page, number, row);
    put_row_rest(page, row);
}
