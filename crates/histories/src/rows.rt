// A row of ours as a row of a history that is judged.
ghost use Rattle.std.specs.Prelude.{◌≡◌, length};
ghost use Rattle.order.specs.Operations.{operation_of};
ghost use Rattle.text.specs.Paged.{Room, Adds};
ghost use Rattle.verdicts.specs.File.{row_bytes};
ghost use Rattle.verdicts.specs.Operations.{as_row};
ghost use Rattle.verdicts.specs.Rows.{told};
ghost use Rattle.histories.specs.OwnFile.{bits_of};

use tables::{Kind, Row};
use text::page::Page;
use verdicts::rows;
use verdicts::rows::ROW_SIZE;

fn judged(row: Row) -> rows::Row
    ensures { told result ≡ as_row bits_of (operation_of row) }
{
    rows::Row {
        process: row.process.0,
        kind: match row.kind {
            Kind::Read => rows::Kind::Read,
            Kind::Write => rows::Kind::Write,
        },
        register: row.register,
        value: row.value.cast_unsigned(),
        complete: row.answered.0 != 0,
    }
}

pub fn put_row(page: &mut Page<'_>, row: Row)
    requires { Room 12 page.old }
    ensures { Adds (row_bytes (as_row bits_of (operation_of row))) 12 page.old page.new }
{
    page.put_bytes(&<[u8; ROW_SIZE]>::from(judged(row)));
}
