// One event: its first byte says which, and what follows is as given.
ghost use Rattle.std.specs.Prelude.{◌≡◌, length};
ghost use Rattle.text.specs.Paged.{Room, Adds};
ghost use Rattle.writing.specs.Bytes.{event_bytes};

use crate::numbers::{put_value, put_word};
use format::kinds::Kind;
use state::Event;
use text::page::Page;

pub fn size_of(event: Event) -> usize
    ensures { result ≡ length (event_bytes event) }
{
    Kind::from(event).size()
}

pub fn put_event(page: &mut Page<'_>, event: Event)
    requires { Room (length (event_bytes event)) page.old }
    ensures { Adds (event_bytes event) (length (event_bytes event)) page.old page.new }
{
    page.put_byte(u8::from(Kind::from(event)));
    match event {
        Event::Read(p, x) => page.put_bytes(&[p.0, x]),
        Event::Write(p, x, v) => {
            page.put_bytes(&[p.0, x]);
            put_value(page, v);
        }
        Event::Deliver(k) | Event::Lose(k) => put_word(page, k),
        Event::Crash(p) => page.put_byte(p.0),
    }
}
