// A page: a lent buffer, and how much of it is used. Each call writes behind that; what lies before it stays, and the buffer keeps its length.
//
// A function that writes a line takes the page, and promises the line:
//
//     fn put_x(page: &mut Page<'_>, ..)
//         requires { Room 22 page.old }
//         ensures { Adds (x_text ..) 22 page.old page.new }
//
// Its proof is one line: `adds_text refl (omega arith) (adds_next c.put_str.ensures (adds_next c.put_number.ensures c.put_byte.ensures))`, laws of
// specs/PagedLaws.antt. A function that takes the buffer itself, `let mut page = Page { bytes: out, used: 0 }; put_x(&mut page, ..); page.used`,
// promises `Wrote 0 (x_text ..) 22 out.old out.new result` with no proof; where it makes several calls, by `let w = (the line above).wrote in search rules`.
//
// Kept, and not `impl Display`: `write!` promises what it wrote only where it answers Ok, and nothing says when it does, so no text could be promised on every input.
ghost use Rattle.std.specs.Prelude.{◌≡◌, ℕ, ◌+◌, ◌*◌, ◌≤◌, ◌<◌, ◌++◌, [], ◌∷◌, length};
ghost use Rattle.text.specs.Paged.{Room, Adds};
ghost use Rattle.text.specs.Printed.{decimal, number, signed, field};
ghost use Rattle.text.specs.Short.{Short};
ghost use Rattle.text.specs.Digits.{sign_text, two_digits};

use crate::numbers::Number;
use words::Time;

#[derive(Drop)]
pub struct Page<'a> {
    pub bytes: &'a mut [u8],
    pub used: usize,
}

impl<'a> Page<'a> {
    pub fn put_byte(&mut self, byte: u8)
        requires { Room 1 self.old }
        ensures { Adds (byte ∷ []) 1 self.old self.new }
    {
        self.bytes[self.used] = byte;
        self.used += 1;
    }

    pub fn put_bytes(&mut self, bytes: &[u8])
        requires { Room (length bytes.now) self.old }
        ensures { Adds bytes.now (length bytes.now) self.old self.new }
    {
        let end = self.used + bytes.len();
        self.bytes[self.used..end].copy_from_slice(bytes);
        self.used = end;
    }

    pub fn put_str(&mut self, text: &str)
        requires { Room (length text.now) self.old }
        ensures { Adds text.now (length text.now) self.old self.new }
    {
        self.put_bytes(text.as_bytes());
    }

    // The two digits of a number below 100.
    fn put_two(&mut self, n: u64)
        requires { (n < 100) × Room 2 self.old }
        ensures { Adds (two_digits n) 2 self.old self.new }
    {
        let at = self.used;
        self.bytes[at] = b'0' + (n / 10) as u8;
        self.bytes[at + 1] = b'0' + (n % 10) as u8;
        self.used = at + 2;
    }

    // Two digits a call: with a call for each, a file of large numbers takes three tenths more instructions.
    pub fn put_decimal(&mut self, n: u64)
        requires { Room (length (decimal n)) self.old }
        ensures { Adds (decimal n) (length (decimal n)) self.old self.new }
    {
        if n < 10 {
            return self.put_byte(b'0' + n as u8);
        }
        if n < 100 {
            return self.put_two(n);
        }
        self.put_decimal(n / 100);
        self.put_two(n % 100);
    }

    // A space, and a number.
    pub fn put_number<N: Number>(&mut self, n: N)
        requires { Room N.most self.old }
        ensures { Adds (number (N.value n)) N.most self.old self.new }
    {
        let widened = n.widened();
        self.put_byte(b' ');
        self.put_decimal(widened);
    }

    // A space, and a time, which has at most five digits. Kept as a clause and no type: a `Time` is laid out as C has it (docs/DECISIONS.md), so any can be handed in.
    pub fn put_time(&mut self, time: Time)
        requires { Room 6 self.old × Short time.0 }
        ensures { Adds (number time.0) 6 self.old self.new }
    {
        self.put_byte(b' ');
        self.put_decimal(time.0 as u64);
    }

    // The sign of a negative value.
    fn put_sign(&mut self, v: i64)
        requires { Room 1 self.old }
        ensures { Adds (sign_text v) 1 self.old self.new }
    {
        if v < 0 {
            self.put_byte(b'-');
        }
    }

    // A space, and a value, with its sign where it is negative.
    pub fn put_value(&mut self, v: i64)
        requires { Room 21 self.old }
        ensures { Adds (field (signed v)) 21 self.old self.new }
    {
        self.put_byte(b' ');
        self.put_sign(v);
        self.put_decimal(v.unsigned_abs());
    }
}
