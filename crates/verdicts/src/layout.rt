// 22: the file's layout and its limits. Length of what follows, version, count of rows, rows, count of row numbers, row numbers.
ghost use Rattle.std.specs.Prelude.{◌≡◌, true, false, ◌+◌, ◌≤◌, length, MatchOption, MatchResult};
ghost use Rattle.words.specs.Ranges.{within};
ghost use Rattle.verdicts.specs.Verdict.{half_at, word_at, sized, laid, named, zeros};
ghost use Rattle.verdicts.specs.Rows.{told, rows_of, numbers_of, number_in};
ghost use Rattle.verdicts.specs.Histories.{Cut, Reads, is_history};
ghost use Rattle.verdicts.specs.declared.faults.Fault.TheVariants.{NoFile};

use crate::faults::Fault;
use crate::history::History;
use crate::rows::{NUMBER_SIZE, ROW_SIZE, Row, VERSION};
use words::limits::ROW_PLACES;

const SHORTEST: usize = 9;

const LENGTH_SIZE: usize = 4;

const VERSION_AT: usize = 4;

const ROW_COUNT_AT: usize = 5;

const ROWS_AT: usize = 7;

// At most so many rows, and so many row numbers.
const MOST: usize = ROW_PLACES;

// Processes and registers are any byte.
pub const BYTES: usize = 256;

// By index, here and in `word_at`: std has no array of a shared slice's first bytes, and `try_into().unwrap()` of a range is no plainer.
fn half_at(bytes: &[u8], at: usize) -> usize
    requires { at + 2 ≤ length bytes.now }
    ensures { result ≡ half_at bytes.now at }
{
    usize::from(u16::from_be_bytes([bytes[at], bytes[at + 1]]))
}

// A row number.
pub fn number_of(bytes: &[u8; NUMBER_SIZE]) -> usize
    ensures { result ≡ number_in bytes.now }
{
    half_at(bytes, 0)
}

fn word_at(bytes: &[u8], at: usize) -> usize
    requires { at + 4 ≤ length bytes.now }
    ensures { result ≡ word_at bytes.now at }
{
    u32::from_be_bytes([bytes[at], bytes[at + 1], bytes[at + 2], bytes[at + 3]]) as usize
}

// The rows and the row numbers of a file that has its length, its version and its two counts, with no byte left over.
fn cut(bytes: &[u8]) -> Option<(&[[u8; ROW_SIZE]], &[[u8; NUMBER_SIZE]])>
    ensures { MatchOption result (sized bytes.now ≡ false) (λ parts. Cut bytes.now parts.0.now parts.1.now) }
{
    let size = bytes.len();
    if size < SHORTEST {
        return None;
    }
    let count = half_at(bytes, ROW_COUNT_AT);
    let at = ROWS_AT + ROW_SIZE * count;
    if size < at + NUMBER_SIZE {
        return None;
    }
    let numbers = half_at(bytes, at);
    let opens = (word_at(bytes, 0) == size - LENGTH_SIZE)
        & ((bytes[VERSION_AT] == VERSION) & (count <= MOST));
    let whole = opens & ((numbers <= MOST) & (at + NUMBER_SIZE + NUMBER_SIZE * numbers == size));
    if !whole {
        return None;
    }
    let (rows, _) = bytes[ROWS_AT..at].as_chunks();
    let (order, _) = bytes[at + NUMBER_SIZE..].as_chunks();
    Some((rows, order))
}

// Each row has one of two kinds and is completed or not, and none comes after an unfinished one of its process.
#[tactic(auto, unfolding(crate::specs::Verdict::zeros))]
fn is_laid(rows: &[[u8; ROW_SIZE]]) -> bool
    ensures { result ≡ laid (zeros 256) (rows_of rows.now) }
{
    // Marks of 0 and 1, since `laid` of specs/Verdict.antt, which may not change, speaks of such a table.
    let mut ended = [0u8; BYTES];
    for bytes in rows {
        let Ok(row) = Row::try_from(bytes) else {
            return false;
        };
        let process = usize::from(row.process);
        if ended[process] != 0 {
            return false;
        }
        ended[process] = u8::from(!row.complete);
    }
    true
}

impl<'a> History<'a> {
    pub fn read(bytes: &'a [u8]) -> Result<History<'a>, Fault>
        ensures { MatchResult result (λ history. Reads bytes.now history) (λ fault. (fault ≡ NoFile) × (is_history bytes.now ≡ false)) }
    {
        let (rows, order) = cut(bytes).ok_or(Fault::NoFile)?;
        if !is_laid(rows) {
            return Err(Fault::NoFile);
        }
        Ok(History { rows, order })
    }

    // The row of a number.
    pub fn row(&self, number: usize) -> Row
        requires { within number (length self.now.rows.now) ≡ true }
        ensures { told result ≡ named (rows_of self.now.rows.now) number }
    {
        Row::try_from(&self.rows[number - 1]).unwrap()
    }
}
