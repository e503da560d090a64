// The lines of all processes: their clocks, and their registers.
ghost use Rattle.std.specs.Prelude.{◌+◌, ◌*◌, ◌≤◌, length};
ghost use Rattle.text.specs.Lines.{proc_texts, store_texts};
ghost use Rattle.text.specs.Paged.{Room, Adds};
ghost use Rattle.text.specs.Short.{ShortClocks, ShortStores};

use crate::lines::put_proc_line;
use crate::page::Page;
use crate::registers::put_reg_lines;
use state::Bench;

// Processes 1 to n.
pub fn put_proc_lines(page: &mut Page<'_>, bench: &Bench)
    requires { (bench.now.n ≤ 7) × (Room (22 * bench.now.n) page.old × ShortClocks bench.now.n bench.now.replicas) }
    ensures { Adds (proc_texts bench.now.replicas 1 bench.now.n) (22 * bench.now.n) page.old page.new }
{
    for (i, replica) in bench.replicas[..bench.n as usize].iter().enumerate() {
        put_proc_line(page, i as u8 + 1, replica);
    }
}

// Registers 1 to m of processes 1 to n.
pub fn put_store_lines(page: &mut Page<'_>, bench: &Bench)
    requires { ((bench.now.n ≤ 7) × (bench.now.m ≤ 16)) × (Room (784 * bench.now.n) page.old × ShortStores bench.now.n bench.now.m bench.now.replicas) }
    ensures { Adds (store_texts bench.now.replicas bench.now.m 1 bench.now.n) (784 * bench.now.n) page.old page.new }
{
    for (i, replica) in bench.replicas[..bench.n as usize].iter().enumerate() {
        put_reg_lines(page, replica, i as u8 + 1, bench.m);
    }
}
