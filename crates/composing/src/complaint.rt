// What is said of a line that is wrong.
ghost use Rattle.std.specs.Prelude.{◌≡◌, ◌+◌, ◌≤◌, length};
ghost use Rattle.text.specs.Paged.{Room, Adds};
ghost use Rattle.composing.specs.Complaint.{fault_text, complaint};

use script::Fault;
use text::page::Page;

#[tactic(auto, unfolding(crate::specs::Complaint::fault_text))]
fn said_of(fault: Fault) -> &'static str
    ensures text { result.now ≡ fault_text fault }
    ensures short { length result.now ≤ 40 }
{
    match fault {
        Fault::Unknown => ": unknown word",
        Fault::Missing => ": a number is missing",
        Fault::TooMany => ": too many words",
        Fault::NotANumber => ": not a number",
        Fault::TooLarge => ": too large for its field",
        Fault::NoBench => ": bench N M stands first, and only there",
        Fault::Processes => ": N is not 1 to 7",
        Fault::Registers => ": M is not 1 to 16",
        Fault::TooLong => ": the file would pass 65,536 bytes",
    }
}

pub fn put_complaint(page: &mut Page<'_>, line: usize, fault: Fault)
    requires { Room 66 page.old }
    ensures { Adds (complaint line fault) 66 page.old page.new }
{
    page.put_str("line");
    page.put_number(line as u64);
    page.put_str(said_of(fault));
    page.put_byte(b'\n');
}
