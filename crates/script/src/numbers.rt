// A word as a number: digits, with no zero in front of others. A value may have a sign in front.
ghost use Rattle.std.specs.Prelude.{◌≡◌, ◌^◌, ◌<◌, ◌≤◌, true, SomeIff, IfOk};
ghost use Rattle.std.specs.Char.{is_ascii_digit};
ghost use Rattle.std.specs.List.{list_all};
ghost use Rattle.script.specs.Numbers.{digits_only, leads, is_number, value, figure_of, amount_of};

use crate::Fault;

// The greatest value, and how far below 0 the smallest one is.
const MOST: u64 = i64::MAX as u64;

const LEAST: u64 = i64::MAX as u64 + 1;

fn are_digits(word: &[u8]) -> bool
    ensures { result ≡ list_all is_ascii_digit word.now }
{
    word.iter().all(|b| b.is_ascii_digit())
}

// There is a first digit, and no zero in front of others.
fn leads(word: &[u8]) -> bool
    ensures { result ≡ leads word.now }
{
    let Some((first, others)) = word.split_first() else {
        return false;
    };
    others.is_empty() | (*first != b'0')
}

#[tactic(auto, using(crate::proofs::NumberLaws::number_parts))]
fn is_number(word: &[u8]) -> bool
    ensures { result ≡ is_number word.now }
{
    are_digits(word) & leads(word)
}

// The number that digits make; none where a byte is no digit, or the number is past 64 bits.
fn value_of(digits: &[u8]) -> Option<u64>
    ensures { SomeIff result ((digits_only digits.now ≡ true) × (value 0 digits.now < 2 ^ 64)) (value 0 digits.now) }
{
    let mut n: u64 = 0;
    for digit in digits {
        if !digit.is_ascii_digit() {
            return None;
        }
        n = n.checked_mul(10)?.checked_add(u64::from(digit - b'0'))?;
    }
    Some(n)
}

// A number of at most so much. The digits are judged as they are read; which of the two is wrong is asked only where one is.
#[tactic(auto, unfolding(crate::specs::Numbers::figure_of))]
pub fn figure(word: &[u8], most: u64) -> Result<u64, Fault>
    ensures value { result ≡ figure_of most word.now }
    ensures within { IfOk result (λ n. n ≤ most) }
{
    match value_of(word) {
        Some(n) if leads(word) && n <= most => Ok(n),
        _ if is_number(word) => Err(Fault::TooLarge),
        _ => Err(Fault::NotANumber),
    }
}

pub fn amount(word: &[u8]) -> Result<i64, Fault>
    ensures { result ≡ amount_of word.now }
{
    let Some(digits) = word.strip_prefix(b"-") else {
        return Ok(figure(word, MOST)? as i64);
    };
    let n = figure(digits, LEAST)?;
    if n == 0 {
        return Err(Fault::NotANumber);
    }
    Ok(-1 - (n - 1) as i64)
}
