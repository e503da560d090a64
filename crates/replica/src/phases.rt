// What a phase says: whether the replica waits, and for which row.
ghost use Rattle.std.specs.Prelude.{◌≡◌};
ghost use Rattle.replica.specs.Handlers.{is_idle};
ghost use Rattle.replica.specs.Numbers.{pointed};

use crate::Phase;

pub fn is_idle(phase: Phase) -> bool
    ensures { result ≡ is_idle phase }
{
    matches!(phase, Phase::Idle)
}

// The row that a waiting replica points to. A number and no Option: rows count from 1, document 01 writes 0 while idle, and the caller would turn None back.
pub fn pointed_by(phase: Phase) -> u16
    ensures { result ≡ pointed phase }
{
    match phase {
        Phase::Idle => 0,
        Phase::Querying(row, _) | Phase::Updating(row, _) => row,
    }
}
