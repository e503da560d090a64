// The first word of a line. It is compared with each word in turn: a `match` on byte strings branches at each byte, and that proof did not close.
ghost use Rattle.std.specs.Prelude.{◌≡◌};
ghost use Rattle.script.specs.Meaning.{same, head_of};

use crate::{Fault, Head};

// Byte by byte: words are short, and `==` on slices takes three times the instructions on them.
#[tactic(auto, using(crate::proofs::HeadLaws::same_length))]
fn is_same(word: &[u8], name: &[u8]) -> bool
    ensures { result ≡ same word.now name.now }
{
    if word.len() != name.len() {
        return false;
    }
    for (i, byte) in word.iter().enumerate() {
        if *byte != name[i] {
            return false;
        }
    }
    true
}

impl<'a> TryFrom<&'a [u8]> for Head {
    type Error = Fault;

    ghost try_from_gives = { λ word r. r ≡ head_of word.now };

    #[tactic(auto, unfolding(crate::specs::Meaning::head_of))]
    fn try_from(word: &'a [u8]) -> Result<Self, Fault> {
        if is_same(word, b"bench") {
            Ok(Head::Bench)
        } else if is_same(word, b"read") {
            Ok(Head::Read)
        } else if is_same(word, b"write") {
            Ok(Head::Write)
        } else if is_same(word, b"deliver") {
            Ok(Head::Deliver)
        } else if is_same(word, b"crash") {
            Ok(Head::Crash)
        } else if is_same(word, b"lose") {
            Ok(Head::Lose)
        } else {
            Err(Fault::Unknown)
        }
    }
}
