// Reads a bench file from standard input, and prints its rehearsal: a line for each router, a line for each step and an
// end, or the refusal alone. What is printed is `rehearsal` of crates/report/specs/Report.antt, the whole of it, of the
// whole input, as `print` promises: `Page` of crates/printing asks for buffers that have room for both.
#![tactic(auto)]

ghost use Rattle.std.specs.Prelude.{◌≡◌, IfSome};
ghost use Rattle.report.specs.Report.{rehearsal};
ghost use Rattle.printing.specs.Printing.{PrintedAs};

use area::limits::LARGEST;
use printing::Page;
use report::{REHEARSAL_ROOM, Text};

fn main(rt: HostRuntime) {
    let mut page = Page {
        text: Text::Rehearsal,
        // One byte more than the largest file has, so that a longer one is seen to be too long.
        file: [0; LARGEST + 1],
        out: [0; REHEARSAL_ROOM],
    };
    print(&rt, &mut page);
}

// Prints the rehearsal of the input, and gives its length; none where a read fails.
fn print<const FILE: usize, const ROOM: usize>(
    rt: &HostRuntime,
    page: &mut Page<FILE, ROOM>,
) -> Option<usize>
    requires text { page.old.text ≡ Text.Rehearsal }
    ensures printed { IfSome result (PrintedAs rehearsal page.new.file page.new.out) }
{
    page.print(rt, b"rehearse")
}
