// Reads a bench file from standard input, and prints what is left after its last step: a line for each router that is
// not done, with its state, the routers that it still waits for and what is due there and unwritten, and how many
// answers "ok" are missing; or the refusal alone. What is printed is `unfinished` of crates/report/specs/Report.antt,
// the whole of it, of the whole input, as `print` promises: `Page` of crates/printing asks for buffers that have room
// for both.
#![tactic(auto)]

ghost use Rattle.std.specs.Prelude.{◌≡◌, IfSome};
ghost use Rattle.report.specs.Report.{unfinished};
ghost use Rattle.printing.specs.Printing.{PrintedAs};

use area::limits::LARGEST;
use printing::Page;
use report::{Text, UNFINISHED_ROOM};

fn main(rt: HostRuntime) {
    let mut page = Page {
        text: Text::Unfinished,
        // One byte more than the largest file has, so that a longer one is seen to be too long.
        file: [0; LARGEST + 1],
        out: [0; UNFINISHED_ROOM],
    };
    print(&rt, &mut page);
}

// Prints what is left after the input's last step, and gives its length; none where a read fails.
fn print<const FILE: usize, const ROOM: usize>(
    rt: &HostRuntime,
    page: &mut Page<FILE, ROOM>,
) -> Option<usize>
    requires text { page.old.text ≡ Text.Unfinished }
    ensures printed { IfSome result (PrintedAs unfinished page.new.file page.new.out) }
{
    page.print(rt, b"unfinished")
}
