// The line of the bench: the first that says anything.
ghost use Rattle.std.specs.Prelude.{◌≡◌, ◌+◌, ◌≤◌, length};
ghost use Rattle.script.specs.Lines.{lines};
ghost use Rattle.composing.specs.Passes.{Opens};
ghost use Rattle.composing.specs.Script.{following, begun, script_of};

use crate::{NotComposed, Opening};
use script::marks::Lines;
use script::meaning::line_of;
use script::{Fault, Line};
use words::limits::{PROCESSES, REGISTERS};
use words::ranges::is_within;

// N and M have to be in range.
fn ranged<'a>(opening: Opening<'a>, text: &[u8]) -> Result<Opening<'a>, NotComposed>
    requires { (opening.number + length (lines opening.rest.now) ≤ length (lines text.now)) × (script_of text.now ≡ begun opening.number opening.n opening.m (following (opening.number + 1) 7 (lines opening.rest.now))) }
    ensures { Opens text.now result }
{
    if !is_within(opening.n, PROCESSES) {
        return Err(NotComposed::Wrong {
            line: opening.number,
            fault: Fault::Processes,
        });
    }
    if !is_within(opening.m, REGISTERS) {
        return Err(NotComposed::Wrong {
            line: opening.number,
            fault: Fault::Registers,
        });
    }
    Ok(opening)
}

pub fn bench_in(text: &[u8]) -> Result<Opening<'_>, NotComposed>
    ensures { Opens text.now result }
{
    // The text behind the bench is handed on, so the lines are not lent to a `zip` with their numbers.
    let mut lines = Lines { rest: text };
    let mut line = 1;
    while let Some(next) = lines.next() {
        match line_of(next) {
            Ok(Line::Blank) => line += 1,
            Ok(Line::Bench(n, m)) => {
                let opening = Opening {
                    n,
                    m,
                    number: line,
                    rest: lines.rest,
                };
                return ranged(opening, text);
            }
            Ok(Line::Does(_)) => {
                return Err(NotComposed::Wrong {
                    line,
                    fault: Fault::NoBench,
                });
            }
            Err(fault) => return Err(NotComposed::Wrong { line, fault }),
        }
    }
    Err(NotComposed::Wrong {
        line,
        fault: Fault::NoBench,
    })
}
