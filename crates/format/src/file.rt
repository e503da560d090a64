// The file as a whole: refused by 1 to 5, or not.
ghost use Rattle.std.specs.Prelude.{◌≡◌};
ghost use Rattle.format.specs.Format.{file_refusal};
ghost use Rattle.format.specs.Parse.{refused};

use crate::numbers::word_at;
use words::limits::{PROCESSES, REGISTERS};
use words::ranges::is_within;
use words::refusal::Refusal;

// Length, version, N and M stand before the first event, so no file is shorter.
pub const HEAD: usize = 7;

pub const LONGEST: usize = 65536;

pub const VERSION: u8 = 1;

// Bytes of the length field, which counts those that follow it; and the places of the bytes behind it.
pub const LENGTH_SIZE: usize = 4;

const VERSION_AT: usize = 4;

pub const N_AT: usize = 5;

pub const M_AT: usize = 6;

#[tactic(auto, unfolding(crate::specs::Format::file_refusal))]
pub fn file_refusal(bytes: &[u8]) -> Result<(), Refusal>
    ensures { refused result ≡ file_refusal bytes.now }
{
    let size = bytes.len();
    if (size < HEAD) | (LONGEST < size) {
        return Err(Refusal::WrongSize);
    }
    if word_at(bytes, 0) as usize != size - LENGTH_SIZE {
        return Err(Refusal::WrongLength);
    }
    if bytes[VERSION_AT] != VERSION {
        return Err(Refusal::WrongVersion);
    }
    if !is_within(bytes[N_AT], PROCESSES) {
        return Err(Refusal::NoProcesses);
    }
    if !is_within(bytes[M_AT], REGISTERS) {
        return Err(Refusal::NoRegisters);
    }
    Ok(())
}
