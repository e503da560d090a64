// The lines that are made of a few numbers.
ghost use Rattle.std.specs.Prelude.{◌+◌, ◌≤◌, ◌++◌, length};
ghost use Rattle.text.specs.Lines.{run_text, state_text, count_text};
ghost use Rattle.text.specs.Paged.{Room, Adds};
ghost use Rattle.text.specs.Printed.{number, proc_line};
ghost use Rattle.text.specs.Short.{Short};

use crate::numbers::Number;
use crate::page::Page;
use replica::Replica;
use state::Bench;

// The first line: the bench, and the number of what stopped the run, 0 for the end.
pub fn put_run_line(page: &mut Page<'_>, bench: &Bench, refusal: u8)
    requires { Room 28 page.old }
    ensures { Adds (run_text bench.now.n bench.now.m bench.now.accepted refusal) 28 page.old page.new }
{
    page.put_str("run");
    page.put_number(bench.n);
    page.put_number(bench.m);
    page.put_number(bench.accepted);
    page.put_number(refusal);
    page.put_byte(b'\n');
}

fn put_state(page: &mut Page<'_>, crashed: bool)
    requires { Room 5 page.old }
    ensures { Adds (state_text crashed) 5 page.old page.new }
{
    page.put_str(if crashed { " down" } else { " up" });
}

pub fn put_proc_line(page: &mut Page<'_>, p: u8, replica: &Replica)
    requires { Room 22 page.old × Short replica.now.clock.0 }
    ensures { Adds (proc_line p replica.now) 22 page.old page.new }
{
    page.put_str("proc");
    page.put_number(p);
    page.put_time(replica.clock);
    put_state(page, replica.crashed);
    page.put_byte(b'\n');
}

// A word and a number.
pub fn put_named<N: Number>(page: &mut Page<'_>, word: &str, n: N)
    requires { Room (length word.now + N.most) page.old }
    ensures { Adds (word.now ++ number (N.value n)) (length word.now + N.most) page.old page.new }
{
    page.put_str(word);
    page.put_number(n);
}

pub fn put_count_line(page: &mut Page<'_>, bench: &Bench)
    requires { Room 111 page.old }
    ensures { Adds (count_text bench.now.sent bench.now.delivered bench.now.lost bench.now.flight) 111 page.old page.new }
{
    put_named(page, "sent", bench.sent);
    put_named(page, " delivered", bench.delivered);
    put_named(page, " lost", bench.lost);
    put_named(page, " flight", bench.flight);
    page.put_byte(b'\n');
}
