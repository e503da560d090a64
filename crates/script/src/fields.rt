// The words behind the first, taken one after another.
ghost use Rattle.std.specs.Prelude.{◌≤◌, IfOk};
ghost use Rattle.script.specs.Lines.{words};
ghost use Rattle.script.specs.Meaning.{number_then, two_then, value_then};
ghost use Rattle.script.specs.Places.{Took};

use crate::Fault;
use crate::marks::Words;
use crate::numbers::{amount, figure};

// The greatest number of one byte, and of four.
const BYTE: u64 = u8::MAX as u64;

const WORD: u64 = u32::MAX as u64;

impl<'a> Words<'a> {
    fn number(&mut self, most: u64) -> Result<u64, Fault>
        ensures took { Took (number_then most (words self.old.rest.now)) (words self.new.rest.now) result }
        ensures within { IfOk result (λ n. n ≤ most) }
    {
        let word = self.next().ok_or(Fault::Missing)?;
        figure(word, most)
    }

    pub fn byte(&mut self) -> Result<u8, Fault>
        ensures { Took (number_then 255 (words self.old.rest.now)) (words self.new.rest.now) result }
    {
        Ok(self.number(BYTE)? as u8)
    }

    pub fn two_bytes(&mut self) -> Result<(u8, u8), Fault>
        ensures { Took (λ go. two_then (words self.old.rest.now) (λ p x. go (p, x))) (words self.new.rest.now) result }
    {
        Ok((self.byte()?, self.byte()?))
    }

    pub fn word(&mut self) -> Result<u32, Fault>
        ensures { Took (number_then 4294967295 (words self.old.rest.now)) (words self.new.rest.now) result }
    {
        Ok(self.number(WORD)? as u32)
    }

    pub fn value(&mut self) -> Result<i64, Fault>
        ensures { Took (value_then (words self.old.rest.now)) (words self.new.rest.now) result }
    {
        let word = self.next().ok_or(Fault::Missing)?;
        amount(word)
    }
}
