// 23 to 27: the passes over the order's row numbers, and over the rows.
ghost use Rattle.std.specs.Prelude.{◌≡◌, false, MatchResult};
ghost use Rattle.verdicts.specs.Verdict.{unfinished_read, missing, rising, reading, zeros, judged_known};
ghost use Rattle.verdicts.specs.Rows.{rows_of, numbers_of};
ghost use Rattle.verdicts.specs.Faults.{faulted};
ghost use Rattle.verdicts.specs.Knowing.{Knows, is_fresh};
ghost use Rattle.verdicts.specs.declared.faults.Fault.TheVariants.{NumberWrong};

use crate::faults::Fault;
use crate::history::{History, Known};
use crate::layout::{BYTES, number_of};
use crate::rows::Kind;
use words::limits::ROW_PLACES;

// A mark for each row number; place 0 is not used.
pub const MARKS: usize = ROW_PLACES + 1;

// Marks are numbers, since `fresh`, `marked` and `missing` of specs/Verdict.antt, which may not change, speak of tables of 0 and 1.
const UNSEEN: u8 = 0;

const SEEN: u8 = 1;

impl<'a> History<'a> {
    // 23: each number is a row's and comes once. Each is marked in the table.
    pub fn known(self, seen: &mut [u8; MARKS]) -> Result<Known<'a>, Fault>
        ensures { MatchResult result (λ known. Knows self.entry seen.old known seen.new) (λ fault. (fault ≡ NumberWrong) × (is_fresh self.entry seen.old ≡ false)) }
    {
        for bytes in self.order {
            let number = number_of(bytes);
            if !(1..=self.rows.len()).contains(&number) {
                return Err(Fault::NumberWrong);
            }
            if seen[number] != UNSEEN {
                return Err(Fault::NumberWrong);
            }
            seen[number] = SEEN;
        }
        Ok(Known { history: self })
    }
}

impl<'a> Known<'a> {
    // 24: an unfinished read is named.
    fn names_unfinished(&self) -> bool
        ensures { result ≡ unfinished_read (rows_of self.now.history.rows.now) (numbers_of self.now.history.order.now) }
    {
        for bytes in self.history.order {
            let row = self.history.row(number_of(bytes));
            if row.kind == Kind::Read && !row.complete {
                return true;
            }
        }
        false
    }

    // 25: a completed row is not marked in the table.
    fn misses_row(&self, seen: &[u8; MARKS]) -> bool
        ensures { result ≡ missing seen.now 1 (rows_of self.now.history.rows.now) }
    {
        for number in 1..=self.history.rows.len() {
            let row = self.history.row(number);
            if row.complete & (seen[number] == UNSEEN) {
                return true;
            }
        }
        false
    }

    // 26: row numbers of a process rise along the order.
    #[tactic(auto, unfolding(crate::specs::Verdict::zeros))]
    fn rises(&self) -> bool
        ensures { result ≡ rising (rows_of self.now.history.rows.now) (zeros 256) (numbers_of self.now.history.order.now) }
    {
        let mut last = [0usize; BYTES];
        for bytes in self.history.order {
            let number = number_of(bytes);
            let process = usize::from(self.history.row(number).process);
            if last[process] >= number {
                return false;
            }
            last[process] = number;
        }
        true
    }

    // 27: each read has the value that its register holds.
    #[tactic(auto, unfolding(crate::specs::Verdict::zeros))]
    fn holds(&self) -> bool
        ensures { result ≡ reading (rows_of self.now.history.rows.now) (zeros 256) (numbers_of self.now.history.order.now) }
    {
        let mut held = [0u64; BYTES];
        for bytes in self.history.order {
            let row = self.history.row(number_of(bytes));
            let register = usize::from(row.register);
            match row.kind {
                Kind::Write => held[register] = row.value,
                Kind::Read => {
                    if held[register] != row.value {
                        return false;
                    }
                }
            }
        }
        true
    }

    // 24 to 27, with the table of what stands in the order.
    #[tactic(auto, unfolding(crate::specs::Verdict::judged_known))]
    pub fn judge(&self, seen: &[u8; MARKS]) -> Result<(), Fault>
        ensures { faulted result ≡ judged_known seen.now (rows_of self.now.history.rows.now) (numbers_of self.now.history.order.now) }
    {
        if self.names_unfinished() {
            return Err(Fault::ReadNamed);
        }
        if self.misses_row(seen) {
            return Err(Fault::RowMissing);
        }
        if !self.rises() {
            return Err(Fault::SequenceBroken);
        }
        if !self.holds() {
            return Err(Fault::ReadWrong);
        }
        Ok(())
    }
}
