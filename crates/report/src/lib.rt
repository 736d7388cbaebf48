// What the programs print for a bench file, put into a lent buffer: `print` puts one of five texts there. Each has a
// module with its lines.
//     rehearsal             a line for each router, what the change needs, a line for each step, and an end
//     all_routes            a line for each pair of routers, with its path before the change and after it, by the full
//                           next-hop sets
//     turns                 a line for each turn of the running sheet, and an end
//     step_section          the steps of the sheet, in hexadecimal
//     unfinished_routers    a line for each router that is not done after the last step, and what is missing
//     lines, hex_lines      each of these lines, of what it shows
// `print` begins with `prepare`: it reads the file and plans its change, and where it refuses, the refusal is the only
// line. This is how a metric of the file gets to a line: `prepare` puts it into the table `before`, Plan fills the
// tables of distances and next hops, and the routes print these; the rehearsal prints the ranks and sets of Plan's
// record, and the sheet is the order that `sheet::in_turn` finds for this record.
// What is printed is specs/Report.antt, made of the lines of specs/Lines.antt, and specs/Rooms.antt says how many bytes
// have room for it. Why it is right: `Writes` of crate text joins the parts of a line, and a line to those before it;
// proofs/LineLaws.antt does so for the steps, and proofs/CallLineLaws.antt for the calls of a sheet;
// proofs/ReportLaws.antt goes from what `prepare` answers to the whole text; proofs/RoomLaws.antt says that ROOM bytes
// are enough for it, and proofs/FirstBytesLaws.antt that 33,089 bytes of an input are. proofs/StepsReadLaws.antt reads
// the steps of the sheet again: they are the calls that the sheet stands for.
#![tactic(auto)]

mod all_routes;
mod hex_lines;
mod lines;
mod rehearsal;
mod step_section;
mod turns;
mod unfinished_routers;

ghost use Rattle.std.specs.Prelude.{◌≡◌, IfOk};
ghost use Rattle.paths.specs.Paths.{AreSame, held};
ghost use Rattle.plan.specs.Plan.{tables_held};
ghost use Rattle.bench_file.specs.Read.{metrics_of};
ghost use Rattle.text.specs.Text.{Appended, Writes};
ghost use Rattle.prepare.specs.Bench.{tables_at};
ghost use Rattle.report.specs.Report.{text_of};
ghost use Rattle.report.specs.Parts.{Within, Ready, lines_by, text_by, step_bytes};

use area::limits::{CELLS, MOST_STEPS, STEP, WIDTH};
use area::refusal::Refusal;
use bench_file::Section;
use paths::Topology;
use plan::Record;
use prepare::{Start, prepare};
use text::Writer;

// As many bytes as have room for each text of any file, as in specs/Rooms.antt: so many for a line, by
// LengthLaws.antt.
pub const REHEARSAL_ROOM: usize = 133 * WIDTH + 27 + 55 * MOST_STEPS + 4;

pub const UNFINISHED_ROOM: usize = (118 + 42 * WIDTH) * WIDTH + 29;

pub const ROUTES_ROOM: usize = 19 + 148 * CELLS;

pub const SHEET_TURNS_ROOM: usize = (67 + 42 * WIDTH) * WIDTH + 4;

pub const SHEET_STEPS_ROOM: usize = 5 + 9 * MOST_STEPS;

// The texts, each with the name that it has in specs/Report.antt. They are few and known, so a text is named by an enum
// and not by a function that is passed: a contract can say what each prints.
#[derive(Clone, Copy, Debug, PartialEq, Eq)]
pub enum Text {
    Rehearsal,
    Routes,
    SheetTurns,
    SheetSteps,
    Unfinished,
}

// Puts a text of a file at the start of `out`, as far as that has room, and gives its length. The tables are lent to be
// filled, whatever they hold, and are left as `prepare` leaves them.
pub fn print(
    text: Text,
    file: &[u8],
    before: &mut [u32],
    metrics: &mut [u32],
    old: &mut Topology<'_>,
    new: &mut Topology<'_>,
    out: &mut [u8],
) -> usize
    ensures text { let lent = tables_held metrics.old old.old new.old in
        Appended out.old 0 (text_of text file.now before.old lent) out.new result }
    ensures metrics { before.new ≡ metrics_of file.now before.old }
    ensures tables { let lent = tables_held metrics.old old.old new.old in
        let left = tables_held metrics.new old.new new.new in
        left ≡ tables_at file.now before.old lent }
    ensures same { AreSame old.old old.new × AreSame new.old new.new }
{
    let start = prepare(file, before, metrics, old, new);
    let mut lines = Writer::new(out);
    printed(text, file, start, old, new, &mut lines);
    lines.at
}

// The refusal, or the lines of the text.
fn printed(
    text: Text,
    file: &[u8],
    start: Result<Start, Refusal>,
    old: &Topology<'_>,
    new: &Topology<'_>,
    lines: &mut Writer<'_>,
)
    requires { IfOk start (λ x. Within file.now x.steps
        × Ready x.record (step_bytes file.now x.steps) (held old.now) (held new.now)) }
    ensures text { Writes lines.old
        (text_by text file.now start (held old.now) (held new.now)) lines.new }
{
    match start {
        Ok(start) => text_lines(
            text,
            &start.record,
            step_bytes(file, start.steps),
            old,
            new,
            lines,
        ),
        Err(why) => lines.refused_line(why.number()),
    }
}

// The bytes of a file's steps, by where they are.
fn step_bytes(file: &[u8], section: Section) -> &[u8]
    requires { Within file.now section }
    ensures bytes { result.now ≡ step_bytes file.now section }
{
    let from = section.at;
    let to = from + STEP * section.count;
    &file[from..to]
}

// The lines of the text: of the record, of the steps that the bytes stand for, and of the tables.
fn text_lines(
    text: Text,
    fresh: &Record,
    bytes: &[u8],
    old: &Topology<'_>,
    new: &Topology<'_>,
    lines: &mut Writer<'_>,
)
    requires { Ready fresh.now bytes.now (held old.now) (held new.now) }
    ensures lines { Writes lines.old
        (lines_by text fresh.now bytes.now (held old.now) (held new.now)) lines.new }
{
    match text {
        Text::Rehearsal => rehearsal::printed(fresh, bytes, lines),
        Text::Routes => all_routes::printed(fresh.n as usize, old, new, lines),
        Text::SheetTurns => turns::printed(fresh, lines),
        Text::SheetSteps => step_section::printed(fresh, lines),
        Text::Unfinished => unfinished_routers::printed(fresh, bytes, lines),
    }
}
