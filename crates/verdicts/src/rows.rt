// One row of a history file: process, kind, register, value, complete. Processes and registers are any byte.
ghost use Rattle.std.specs.Prelude.{◌≡◌};
ghost use Rattle.verdicts.specs.Rows.{Decodes, kind_byte, told};
ghost use Rattle.verdicts.specs.File.{row_bytes};

use crate::faults::Fault;

pub const VERSION: u8 = 1;

// Bytes of a row; and of a count or a row number.
pub const ROW_SIZE: usize = 12;

pub const NUMBER_SIZE: usize = 2;

#[derive(Clone, Copy, Debug, PartialEq, Eq)]
pub enum Kind {
    Read = 1,
    Write = 2,
}

impl From<Kind> for u8 {
    ghost from_gives = { λ kind byte. byte ≡ kind_byte kind };

    fn from(kind: Kind) -> u8 {
        kind as u8
    }
}

#[derive(Clone, Copy, Debug, PartialEq, Eq)]
pub struct Row {
    pub process: u8,
    pub kind: Kind,
    pub register: u8,
    pub value: u64,
    pub complete: bool,
}

// A row has one of two kinds, and is completed or not.
impl TryFrom<&[u8; ROW_SIZE]> for Row {
    type Error = Fault;

    ghost try_from_gives = { λ bytes r. Decodes bytes.now r };

    fn try_from(bytes: &[u8; ROW_SIZE]) -> Result<Self, Fault> {
        // Eight names for the value: `value @ ..` was tried, and the check does not cover it.
        let [process, kind, register, a, b, c, d, e, f, g, h, complete] = *bytes;
        Ok(Row {
            process,
            kind: match kind {
                1 => Kind::Read,
                2 => Kind::Write,
                _ => return Err(Fault::NoFile),
            },
            register,
            value: u64::from_be_bytes([a, b, c, d, e, f, g, h]),
            complete: match complete {
                0 => false,
                1 => true,
                _ => return Err(Fault::NoFile),
            },
        })
    }
}

impl From<Row> for [u8; ROW_SIZE] {
    ghost from_gives = { λ row bytes. bytes ≡ row_bytes (told row) };

    fn from(row: Row) -> [u8; ROW_SIZE] {
        let [a, b, c, d, e, f, g, h] = row.value.to_be_bytes();
        [
            row.process,
            u8::from(row.kind),
            row.register,
            a,
            b,
            c,
            d,
            e,
            f,
            g,
            h,
            u8::from(row.complete),
        ]
    }
}
