// The line of a message: its envelope, and its body.
ghost use Rattle.std.specs.Prelude.{◌+◌, ◌≤◌, ◌++◌, length};
ghost use Rattle.text.specs.Paged.{Room, Adds};
ghost use Rattle.text.specs.Printed.{number};
ghost use Rattle.inflight.specs.Flight.{word_message, pair_text, body_text, message_line};

use text::page::Page;
use words::{Body, Message, Pair};

// Number, sender and recipient.
fn put_ends(page: &mut Page<'_>, message: &Message)
    requires { Room 26 page.old }
    ensures { Adds (word_message ++ (number message.now.number ++ (number message.now.from.0 ++ number message.now.to.0))) 26 page.old page.new }
{
    page.put_str("message");
    page.put_number(message.number);
    page.put_number(message.from.0);
    page.put_number(message.to.0);
}

fn put_pair(page: &mut Page<'_>, pair: Pair)
    requires { Room 48 page.old }
    ensures { Adds (pair_text pair) 48 page.old page.new }
{
    page.put_number(pair.stamp.time.0);
    page.put_number(pair.stamp.process.0);
    page.put_value(pair.value);
}

// A word and a register.
fn put_register(page: &mut Page<'_>, word: &str, x: u8)
    requires { Room (length word.now + 6) page.old }
    ensures { Adds (word.now ++ number x) (length word.now + 6) page.old page.new }
{
    page.put_str(word);
    page.put_number(x);
}

fn put_body(page: &mut Page<'_>, body: Body)
    requires { Room 61 page.old }
    ensures { Adds (body_text body) 61 page.old page.new }
{
    match body {
        Body::Query(x) => put_register(page, " query", x),
        Body::Response(pair) => {
            page.put_str(" response");
            put_pair(page, pair);
        }
        Body::Update(x, pair) => {
            put_register(page, " update", x);
            put_pair(page, pair);
        }
        Body::Ack => page.put_str(" ack"),
    }
}

pub fn put_message_line(page: &mut Page<'_>, message: &Message)
    requires { Room 144 page.old }
    ensures { Adds (message_line message.now) 144 page.old page.new }
{
    put_ends(page, message);
    page.put_number(message.time.0);
    page.put_number(message.rid.0);
    put_body(page, message.body);
    page.put_byte(b'\n');
}
