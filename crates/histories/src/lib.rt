// The history file of a bench of ours, written into a lent buffer: what `verdicts` judges.
#![tactic(auto)]

ghost use Rattle.std.specs.Prelude.{◌+◌, ◌*◌, ◌<◌, ◌≤◌, length};
ghost use Rattle.text.specs.Paged.{Room, Adds};
ghost use Rattle.verdicts.specs.File.{two, numbers_bytes};
ghost use Rattle.histories.specs.OwnFile.{head_text, rows_text, order_text, file_of, Recorded};

use crate::rows::put_row;
use tables::Row;
use text::page::Page;
use verdicts::rows::{NUMBER_SIZE, ROW_SIZE, VERSION};

pub mod rows;

// Version and the two counts, which the length field counts beside the rows and the row numbers.
const FIXED_SIZE: usize = 1 + NUMBER_SIZE + NUMBER_SIZE;

// A count or a row number, big-endian.
fn put_number(page: &mut Page<'_>, n: u16)
    requires { Room 2 page.old }
    ensures { Adds (two n) 2 page.old page.new }
{
    page.put_bytes(&n.to_be_bytes());
}

// The length, the version and the count of rows.
pub fn put_head(page: &mut Page<'_>, rows: u16, numbers: u16)
    requires { Room 7 page.old }
    ensures { Adds (head_text rows numbers) 7 page.old page.new }
{
    let size = FIXED_SIZE + ROW_SIZE * rows as usize + NUMBER_SIZE * numbers as usize;
    page.put_bytes(&(size as u32).to_be_bytes());
    page.put_byte(VERSION);
    put_number(page, rows);
}

pub fn put_rows(page: &mut Page<'_>, rows: &[Row])
    requires { Room (12 * length rows.now) page.old }
    ensures { Adds (rows_text rows.now) (12 * length rows.now) page.old page.new }
{
    for row in rows {
        put_row(page, *row);
    }
}

fn put_numbers(page: &mut Page<'_>, order: &[u16])
    requires { Room (2 * length order.now) page.old }
    ensures { Adds (numbers_bytes order.now) (2 * length order.now) page.old page.new }
{
    for number in order {
        put_number(page, *number);
    }
}

// The count of row numbers, and the numbers.
pub fn put_order(page: &mut Page<'_>, order: &[u16])
    requires { Room (2 + 2 * length order.now) page.old × (length order.now < 65536) }
    ensures { Adds (order_text (length order.now) order.now) (2 + 2 * length order.now) page.old page.new }
{
    put_number(page, order.len() as u16);
    put_numbers(page, order);
}

fn put_file(page: &mut Page<'_>, rows: &[Row], order: &[u16])
    requires { Room 14345 page.old × ((length rows.now ≤ 1024) × (length order.now ≤ 1024)) }
    ensures { Adds (file_of rows.now order.now) 14345 page.old page.new }
{
    put_head(page, rows.len() as u16, order.len() as u16);
    put_rows(page, rows);
    put_order(page, order);
}

// The whole file, at the front of the buffer; how long it is.
pub fn put_history(out: &mut [u8], rows: &[Row], order: &[u16]) -> usize
    requires { (14345 ≤ length out.old) × ((length rows.now ≤ 1024) × (length order.now ≤ 1024)) }
    ensures { Recorded rows.now order.now out.old out.new result }
{
    let mut page = Page {
        bytes: out,
        used: 0,
    };
    put_file(&mut page, rows, order);
    page.used
}
