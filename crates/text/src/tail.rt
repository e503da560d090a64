// What follows the rows: the order, the processes, the registers and the counts of a bench.
ghost use Rattle.std.specs.Prelude.{◌+◌, ◌*◌, ◌≤◌, length};
ghost use Rattle.text.specs.Lines.{tail_text};
ghost use Rattle.text.specs.Paged.{Room, Adds};
ghost use Rattle.text.specs.Short.{ShortBench};

use crate::lines::put_count_line;
use crate::listing::put_order_line;
use crate::page::Page;
use crate::replicas::{put_proc_lines, put_store_lines};
use state::Bench;

pub fn put_tail(page: &mut Page<'_>, bench: &Bench, order: &[u16])
    requires within { (bench.now.n ≤ 7) × ((bench.now.m ≤ 16) × ShortBench bench.now) }
    requires room { Room (5759 + 6 * length order.now) page.old }
    ensures { Adds (tail_text bench.now order.now) (5759 + 6 * length order.now) page.old page.new }
{
    put_order_line(page, order);
    put_proc_lines(page, bench);
    put_store_lines(page, bench);
    put_count_line(page, bench);
}
