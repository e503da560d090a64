// The history file of a schedule: its bytes in, the history and the one order out, as a file that `verdicts` judges. The tables are made here, so a caller lends only the bytes and a buffer.
#![tactic(auto)]

ghost use Rattle.std.specs.Prelude.{◌≡◌, ◌≤◌, is_ok, leb, length, IfErr};
ghost use Rattle.words.specs.declared.refusal.Refusal.TheVariants.{ShortOutput};
ghost use Rattle.text.specs.Written.{Wrote};
ghost use Rattle.replaying.specs.Replayed.{written, Fronts};
ghost use Rattle.recording.specs.Recording.{recorded, history_reply, history_left};

use histories::put_history;
use order::fill_order;
use replaying::run_history;
use tables::Row;
use text::refused::refusal_text;
use words::limits::ROW_PLACES;
use words::refusal::Refusal;

// No file is longer.
pub const LONGEST_FILE: usize = 14345;

// The file, at the front of the buffer; of a schedule that starts no bench, the line that refuses it.
fn history_into(out: &mut [u8], listing: &mut [u16], bytes: &[u8]) -> usize
    requires { (14345 ≤ length out.old) × (length listing.old ≡ 1024) }
    ensures { Wrote 0 (recorded bytes.now) 14345 out.old out.new result }
{
    let mut rows = [Row::default(); ROW_PLACES];
    match run_history(&mut rows, bytes) {
        Ok(ran) => {
            let used = ran.bench.rows as usize;
            let count = fill_order(&rows, ran.bench.rows, listing);
            put_history(out, &rows[..used], &listing[..count as usize])
        }
        Err(refusal) => refusal_text(out, refusal),
    }
}

// The history file of a schedule, laid at the front of a lent buffer; how long it is. A buffer of fewer than 14,345 bytes is left as it was.
pub fn history(bytes: &[u8], out: &mut [u8]) -> Result<usize, Refusal>
    ensures value { (written result ≡ history_reply bytes.now out.old) × (out.new ≡ history_left bytes.now out.old) }
    ensures room { is_ok result ≡ leb 14345 (length out.old) }
    ensures short { IfErr result (λ e. e ≡ ShortOutput) }
    ensures fronts { Fronts (written result) out.new }
{
    if out.len() < LONGEST_FILE {
        return Err(Refusal::ShortOutput);
    }
    let mut listing = [0u16; ROW_PLACES];
    Ok(history_into(out, &mut listing, bytes))
}
