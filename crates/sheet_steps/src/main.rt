// Reads a bench file from standard input, and prints the steps by which its running sheet is followed, in hexadecimal,
// to be put into the file in place of its own: their count, and a line for each; or the refusal alone. What is printed
// is `sheet_steps` of crates/report/specs/Report.antt, the whole of it, of the whole input, as `print` promises: `Page`
// of crates/printing asks for buffers that have room for both.
#![tactic(auto)]

ghost use Rattle.std.specs.Prelude.{◌≡◌, IfSome};
ghost use Rattle.report.specs.Report.{sheet_steps};
ghost use Rattle.printing.specs.Printing.{PrintedAs};

use area::limits::LARGEST;
use printing::Page;
use report::{SHEET_STEPS_ROOM, Text};

fn main(rt: HostRuntime) {
    let mut page = Page {
        text: Text::SheetSteps,
        // One byte more than the largest file has, so that a longer one is seen to be too long.
        file: [0; LARGEST + 1],
        out: [0; SHEET_STEPS_ROOM],
    };
    print(&rt, &mut page);
}

// Prints the steps of the input's sheet, and gives their length; none where a read fails.
fn print<const FILE: usize, const ROOM: usize>(
    rt: &HostRuntime,
    page: &mut Page<FILE, ROOM>,
) -> Option<usize>
    requires text { page.old.text ≡ Text.SheetSteps }
    ensures printed { IfSome result (PrintedAs sheet_steps page.new.file page.new.out) }
{
    page.print(rt, b"sheet_steps")
}
