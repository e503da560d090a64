// The text of a bench and its lent tables, written into a lent buffer.
#![tactic(auto)]

ghost use Rattle.std.specs.Prelude.{◌+◌, ◌*◌, ◌≤◌, length, take};
ghost use Rattle.text.specs.Paged.{Room, Adds};
ghost use Rattle.text.specs.Printed.{row_lines};
ghost use Rattle.text.specs.Short.{ShortRows};
ghost use Rattle.words.specs.Stops.{stop_number};
ghost use Rattle.report.specs.Reported.{Reported, Reportable};

use state::Bench;
use tables::Row;
use text::lines::put_run_line;
use text::page::Page;
use text::rows::put_row_line;
use text::tail::put_tail;
use words::refusal::Refusal;

// The lines of the rows, whose times have at most five digits.
pub fn put_rows(page: &mut Page<'_>, rows: &[Row])
    requires { Room (68 * length rows.now) page.old × ((length rows.now ≤ 1024) × ShortRows (length rows.now) rows.now) }
    ensures { Adds (row_lines 1 rows.now) (68 * length rows.now) page.old page.new }
{
    for (i, row) in rows.iter().enumerate() {
        put_row_line(page, i as u16 + 1, row);
    }
}

// The whole text of a replay that started a bench, and the number of what stopped it, 0 for the end; the order is that of its rows.
pub fn put_text(out: &mut [u8], bench: &Bench, refusal: u8, rows: &[Row], order: &[u16]) -> usize
    requires { (81563 ≤ length out.old) × Reportable bench.now rows.now order.now }
    ensures { Reported bench.now refusal rows.now order.now out.old out.new result }
{
    let mut page = Page {
        bytes: out,
        used: 0,
    };
    put_run_line(&mut page, bench, refusal);
    put_rows(&mut page, &rows[..bench.rows as usize]);
    put_tail(&mut page, bench, order);
    page.used
}

pub fn put_report(
    out: &mut [u8],
    bench: &Bench,
    stopped: Option<Refusal>,
    rows: &[Row],
    order: &[u16],
) -> usize
    requires { (81563 ≤ length out.old) × Reportable bench.now rows.now order.now }
    ensures { Reported bench.now (stop_number stopped) rows.now order.now out.old out.new result }
{
    put_text(out, bench, stopped.map_or(0, Refusal::number), rows, order)
}
