// What the programs share that print a text of a bench file: each makes a page, with its text and its buffers.
//     Page             the text, and buffers with room for it and for the largest file
//     Page::print      from standard input to standard output
//     whole            the text of what was read, put into the page
// What was read decides the whole text, and nothing of it is left off: proofs/StreamLaws.antt of crate streams, with
// FirstBytesLaws.antt and RoomLaws.antt of crate report.
#![tactic(auto)]

ghost use Rattle.std.specs.Prelude.{◌≡◌, List, ℕ, ◌<◌, ◌≤◌, length, take, IfSome};
ghost use Rattle.streams.specs.Streams.{IsPrefixLen, ReadOf};
ghost use Rattle.plan.specs.Plan.{tables_held};
ghost use Rattle.plan.specs.Planned.{Sized};
ghost use Rattle.bench_file.specs.Sections.{largest};
ghost use Rattle.report.specs.Report.{text_of};
ghost use Rattle.report.specs.Rooms.{room_of};
ghost use Rattle.printing.specs.Printing.{Printed};

use area::limits::{CELLS, UNUSED};
use paths::Topology;
use report::Text;

// A text to be printed, and the buffers for it: a file that is too long is seen to be so, and the text is not cut.
#[derive(Drop)]
pub struct Page<const FILE: usize, const ROOM: usize> {
    pub text: Text,
    pub file: [u8; FILE],
    pub out: [u8; ROOM],
    pub ghost input: { largest < FILE },
    pub ghost output: { room_of text ≤ ROOM },
}

impl<const FILE: usize, const ROOM: usize> Page<FILE, ROOM> {
    // Reads a bench file from standard input, writes its text to standard output, and gives the text's length; none
    // where a read fails.
    pub fn print(&mut self, rt: &HostRuntime, program: &[u8]) -> Option<usize>
        ensures printed { IfSome result (Printed self.old.text self.new.file self.new.out) }
    {
        let count = streams::read(rt, program, &mut self.file).ok()?;
        let mut before = [UNUSED; CELLS];
        let mut metrics = [UNUSED; CELLS];
        let mut old = Topology {
            dist: &mut [0; CELLS],
            hops: &mut [0; CELLS],
            fours: &mut [0; CELLS],
        };
        let mut new = Topology {
            dist: &mut [0; CELLS],
            hops: &mut [0; CELLS],
            fours: &mut [0; CELLS],
        };
        let length = whole(
            self.text,
            &self.file,
            count,
            &mut before,
            &mut metrics,
            &mut old,
            &mut new,
            &mut self.out,
        );
        streams::write(rt, program, &self.out[..length]);
        Some(length)
    }
}

// Puts the text of the input at the start of `out`, and gives its length. The first `count` bytes of `file` are the
// input, as much of it as has room there: more of it would change nothing, and nothing of the text is left off.
fn whole(
    text: Text,
    file: &[u8],
    count: usize,
    before: &mut [u32],
    metrics: &mut [u32],
    old: &mut Topology<'_>,
    new: &mut Topology<'_>,
    out: &mut [u8],
) -> usize
    requires largest_in_bounds { largest < length file.now }
    requires prefix_len { IsPrefixLen count file.now }
    requires room_in_bounds { room_of text ≤ length out.old }
    requires sized { Sized before.old (tables_held metrics.old old.old new.old) }
    ensures counted { IsPrefixLen result out.new }
    ensures text { let lent = tables_held metrics.old old.old new.old in
        ((input : List ℕ)
        → ReadOf input file.now count
        → take result out.new ≡ text_of text input before.old lent) }
    ensures printed { Printed text file.now out.new result }
{
    report::print(text, &file[..count], before, metrics, old, new, out)
}
