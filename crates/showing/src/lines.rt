// The line of the bench, and of an event.
ghost use Rattle.std.specs.Prelude.{◌+◌, ◌*◌, ◌++◌, length};
ghost use Rattle.text.specs.Paged.{Room, Adds};
ghost use Rattle.text.specs.Printed.{number};
ghost use Rattle.writing.specs.Bytes.{event_bytes};
ghost use Rattle.state.specs.declared.Event.TheVariants.{Write};
ghost use Rattle.showing.specs.Shown.{ended, bench_line, event_line};

use state::Event;
use text::numbers::Number;
use text::page::Page;

// A word, a number, and the end.
fn put_one<N: Number>(page: &mut Page<'_>, word: &str, n: N)
    requires { Room (length word.now + N.most + 1) page.old }
    ensures { Adds (word.now ++ (number (N.value n) ++ ended)) (length word.now + N.most + 1) page.old page.new }
{
    page.put_str(word);
    page.put_number(n);
    page.put_byte(b'\n');
}

// A word, two numbers below 256, and the end.
fn put_two(page: &mut Page<'_>, word: &str, p: u8, x: u8)
    requires { Room (length word.now + 9) page.old }
    ensures { Adds (word.now ++ (number p ++ (number x ++ ended))) (length word.now + 9) page.old page.new }
{
    page.put_str(word);
    page.put_number(p);
    page.put_number(x);
    page.put_byte(b'\n');
}

fn put_write(page: &mut Page<'_>, p: u8, x: u8, v: i64)
    requires { Room 35 page.old }
    ensures { Adds (event_line (Write (record { 0 = p }) x v)) 35 page.old page.new }
{
    page.put_str("write");
    page.put_number(p);
    page.put_number(x);
    page.put_value(v);
    page.put_byte(b'\n');
}

pub fn put_bench_line(page: &mut Page<'_>, n: u8, m: u8)
    requires { Room 18 page.old }
    ensures { Adds (bench_line n m) 18 page.old page.new }
{
    put_two(page, "bench", n, m);
}

pub fn put_event_line(page: &mut Page<'_>, event: Event)
    requires { Room (6 * length (event_bytes event)) page.old }
    ensures { Adds (event_line event) (6 * length (event_bytes event)) page.old page.new }
{
    match event {
        Event::Read(p, x) => put_two(page, "read", p.0, x),
        Event::Write(p, x, v) => put_write(page, p.0, x, v),
        Event::Deliver(k) => put_one(page, "deliver", k),
        Event::Crash(p) => put_one(page, "crash", p.0),
        Event::Lose(k) => put_one(page, "lose", k),
    }
}
