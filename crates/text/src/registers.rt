// The lines of registers.
ghost use Rattle.std.specs.Prelude.{◌+◌, ◌*◌, ◌≤◌, length};
ghost use Rattle.text.specs.Paged.{Room, Adds};
ghost use Rattle.text.specs.Printed.{reg_line, reg_lines};
ghost use Rattle.text.specs.Short.{Short, ShortPairs};

use crate::page::Page;
use crate::rows::put_pair;
use replica::Replica;
use words::Pair;

// Nothing where the stamp time is 0.
pub fn put_reg_line(page: &mut Page<'_>, p: u8, x: u8, pair: Pair)
    requires { Room 49 page.old × Short pair.stamp.time.0 }
    ensures { Adds (reg_line p x pair) 49 page.old page.new }
{
    if pair.stamp.time.0 == 0 {
        return;
    }
    page.put_str("reg");
    page.put_number(p);
    page.put_number(x);
    put_pair(page, pair);
    page.put_byte(b'\n');
}

// Registers 1 to m of one process.
pub fn put_reg_lines(page: &mut Page<'_>, replica: &Replica, p: u8, m: u8)
    requires { (m ≤ 16) × (Room (49 * m) page.old × ShortPairs m replica.now.pairs) }
    ensures { Adds (reg_lines replica.now p 1 m) (49 * m) page.old page.new }
{
    for (i, pair) in replica.pairs[..m as usize].iter().enumerate() {
        put_reg_line(page, p, i as u8 + 1, *pair);
    }
}
