// What one schedule adds.
ghost use Rattle.std.specs.Prelude.{◌≡◌};
ghost use Rattle.figures.specs.Parts.{file_number, bench_traffic, entry_of, run_entry, refused_entry};

use crate::{Entry, History, Traffic};
use state::Bench;

fn traffic_of(bench: Bench) -> Traffic
    ensures { result ≡ bench_traffic bench }
{
    Traffic {
        sent: u64::from(bench.sent),
        delivered: u64::from(bench.delivered),
        lost: u64::from(bench.lost),
        left: u64::from(bench.flight),
    }
}

impl Entry {
    // Of a run, by the bench that it left and what was counted of its rows. An event that stopped it has a number too, but does not count here.
    pub fn of_run(bench: Bench, history: History) -> Entry
        ensures { result ≡ run_entry bench history }
    {
        Entry {
            refusal: 0,
            history,
            traffic: traffic_of(bench),
        }
    }

    // Of a file that starts no bench, by its number, whichever it is.
    pub fn refused(number: u8) -> Entry
        ensures { result ≡ refused_entry number }
    {
        Entry {
            refusal: number,
            history: History::default(),
            traffic: Traffic::default(),
        }
    }
}

// A file that starts no bench leaves one of 0 processes, and the number is the file's; else it is that of an event, and does not count here.
fn file_number(refusal: u8, n: u8) -> u8
    ensures { result ≡ file_number refusal n }
{
    if n == 0 {
        return refusal;
    }
    0
}

// Of either, by the number and the bench that are left and what was counted of the rows.
pub fn entry_of(refusal: u8, bench: Bench, history: History) -> Entry
    ensures { result ≡ entry_of (record { refusal = refusal; bench = bench }) history }
{
    Entry {
        refusal: file_number(refusal, bench.n),
        ..Entry::of_run(bench, history)
    }
}
