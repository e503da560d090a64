// What stands before the events, and whether a file is written at all.
ghost use Rattle.std.specs.Prelude.{◌≡◌, ◌∷◌, [], ◌++◌, ◌-◌, ◌≤◌};
ghost use Rattle.text.specs.Paged.{Room, Adds};
ghost use Rattle.format.specs.Parse.{refused};
ghost use Rattle.writing.specs.Bytes.{word_bytes};
ghost use Rattle.writing.specs.Writing.{write_refusal};

use crate::numbers::put_word;
use format::file::{LENGTH_SIZE, LONGEST, VERSION};
use text::page::Page;
use words::limits::{PROCESSES, REGISTERS};
use words::ranges::is_within;
use words::refusal::Refusal;

// Whether a file of so many bytes is written into an output of so many; the first refusal that holds is given.
#[tactic(auto, unfolding(crate::specs::Writing::write_refusal))]
pub fn may_write(n: u8, m: u8, size: usize, room: usize) -> Result<(), Refusal>
    ensures { refused result ≡ write_refusal n m size room }
{
    if !is_within(n, PROCESSES) {
        return Err(Refusal::NoProcesses);
    }
    if !is_within(m, REGISTERS) {
        return Err(Refusal::NoRegisters);
    }
    if LONGEST < size {
        return Err(Refusal::WrongSize);
    }
    if room < size {
        return Err(Refusal::ShortOutput);
    }
    Ok(())
}

// Length, version, N and M of a file of so many bytes.
pub fn put_head(page: &mut Page<'_>, n: u8, m: u8, size: usize)
    requires { Room 7 page.old × ((7 ≤ size) × (size ≤ 65536)) }
    ensures { Adds (word_bytes (size - 4) ++ (1 ∷ (n ∷ (m ∷ [])))) 7 page.old page.new }
{
    put_word(page, (size - LENGTH_SIZE) as u32);
    page.put_bytes(&[VERSION, n, m]);
}
