// Reads a bench file from standard input, and prints the distances and next hops of its routers, before the change and
// after it: a line for each pair of routers, or the refusal alone. What is printed is `routes` of
// crates/report/specs/Report.antt, the whole of it, of the whole input, as `print` promises: `Page` of crates/printing
// asks for buffers that have room for both.
#![tactic(auto)]

ghost use Rattle.std.specs.Prelude.{◌≡◌, IfSome};
ghost use Rattle.report.specs.Report.{routes};
ghost use Rattle.printing.specs.Printing.{PrintedAs};

use area::limits::LARGEST;
use printing::Page;
use report::{ROUTES_ROOM, Text};

fn main(rt: HostRuntime) {
    let mut page = Page {
        text: Text::Routes,
        // One byte more than the largest file has, so that a longer one is seen to be too long.
        file: [0; LARGEST + 1],
        out: [0; ROUTES_ROOM],
    };
    print(&rt, &mut page);
}

// Prints the routes of the input, and gives their length; none where a read fails.
fn print<const FILE: usize, const ROOM: usize>(
    rt: &HostRuntime,
    page: &mut Page<FILE, ROOM>,
) -> Option<usize>
    requires text { page.old.text ≡ Text.Routes }
    ensures printed { IfSome result (PrintedAs routes page.new.file page.new.out) }
{
    page.print(rt, b"routes")
}
