// The line of the order: its row numbers.
ghost use Rattle.std.specs.Prelude.{◌+◌, ◌*◌, ◌≤◌, length};
ghost use Rattle.text.specs.Paged.{Room, Adds};
ghost use Rattle.text.specs.Printed.{numbers, order_line};

use crate::page::Page;

fn put_numbers(page: &mut Page<'_>, order: &[u16])
    requires { Room (6 * length order.now) page.old }
    ensures { Adds (numbers order.now) (6 * length order.now) page.old page.new }
{
    for number in order {
        page.put_number(*number);
    }
}

pub fn put_order_line(page: &mut Page<'_>, order: &[u16])
    requires { Room (6 + 6 * length order.now) page.old }
    ensures { Adds (order_line order.now) (6 + 6 * length order.now) page.old page.new }
{
    page.put_str("order");
    put_numbers(page, order);
    page.put_byte(b'\n');
}
