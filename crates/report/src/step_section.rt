// The steps of the running sheet, as the step section of a bench file in hexadecimal.
ghost use Rattle.std.specs.Prelude.{◌≤◌, get_or};
ghost use Rattle.area.specs.Limits.{width};
ghost use Rattle.machine.specs.Kinds.{kind_number};
ghost use Rattle.machine.specs.Run.{call, ticks};
ghost use Rattle.sheet.specs.Follow.{each, call_each, call_members, turn, following, sheet_calls};
ghost use Rattle.text.specs.Text.{Writes};
ghost use Rattle.report.specs.Lines.{call_lines, step_section};
ghost use Rattle.report.specs.Parts.{Counted, opening};

use crate::hex_lines::{call_line, count_line};
use area::limits::{MOST_STEPS, Set, WIDTH};
use machine::kinds::Kind;
use needs::needs;
use plan::Record;
use sets::{entry, member};
use sheet::in_turn;
use text::Writer;

// The section of a record's sheet, or that it has too many steps for a file. What the change needs and the ticks of the
// hold time are as many calls as follow the sheet.
#[tactic(auto, using(needs::proofs::NeedsLaws::needs_any))]
pub(crate) fn printed(fresh: &Record, text: &mut Writer<'_>)
    requires { (fresh.now.n ≤ width) × Counted fresh.now }
    ensures section { Writes text.old (step_section (sheet_calls fresh.now)) text.new }
{
    let count = needs(*fresh) + fresh.hold_time as usize;
    if MOST_STEPS < count {
        text.line(b"too many steps: ", count as u64);
        return;
    }
    count_line(count as u16, text);
    sheet_lines(fresh, &in_turn(*fresh), text);
}

// A line for each call by which the routers at these places are upgraded, one after another.
fn sheet_lines(fresh: &Record, places: &[u8; WIDTH], text: &mut Writer<'_>)
    requires { fresh.now.n ≤ width }
    ensures lines { let lines = call_lines (following fresh.now (λ k. get_or places.now k 0)) in
        Writes text.old lines text.new }
{
    opening_calls(fresh.n as usize, fresh.hold_time as usize, text);
    turns_calls(fresh, places, text);
}

// All routers learn, the hold time goes by, and all are released.
fn opening_calls(n: usize, hold: usize, text: &mut Writer<'_>)
    requires { n ≤ width }
    ensures lines { Writes text.old (call_lines (opening n hold)) text.new }
{
    router_calls(Kind::Learn, n, text);
    tick_calls(hold, text);
    router_calls(Kind::Release, n, text);
}

// A call for each router.
fn router_calls(kind: Kind, n: usize, text: &mut Writer<'_>)
    requires { n ≤ width }
    ensures lines { let lines = call_lines (call_each n (λ x. call (kind_number kind) x 0)) in
        Writes text.old lines text.new }
{
    // By number: the line of a call has it.
    for x in 0..n {
        call_line(kind, x as u8, 0, text);
    }
}

// So many ticks.
fn tick_calls(count: usize, text: &mut Writer<'_>)
    ensures lines { Writes text.old (call_lines (ticks count)) text.new }
{
    for _ in 0..count {
        call_line(Kind::Tick, 0, 0, text);
    }
}

// The calls of all turns.
fn turns_calls(fresh: &Record, places: &[u8; WIDTH], text: &mut Writer<'_>)
    requires { fresh.now.n ≤ width }
    ensures lines { let lines = call_lines (each fresh.now.n (λ k. turn fresh.now (get_or places.now k 0))) in
        Writes text.old lines text.new }
{
    for router in &places[..fresh.n as usize] {
        turn_calls(fresh, *router, text);
    }
}

// The calls of one turn: the writes, the finish and the messages.
fn turn_calls(fresh: &Record, router: u8, text: &mut Writer<'_>)
    requires { fresh.now.n ≤ width }
    ensures lines { Writes text.old (call_lines (turn fresh.now router)) text.new }
{
    let n = fresh.n as usize;
    let writes = entry(&fresh.due, router as usize);
    let tells = entry(&fresh.telling, router as usize);
    member_calls(Kind::Write, router, writes, n, text);
    call_line(Kind::Finish, router, 0, text);
    member_calls(Kind::Deliver, router, tells, n, text);
}

// A call of router a for each of the n routers that is a member of a set.
fn member_calls(kind: Kind, a: u8, set: Set, n: usize, text: &mut Writer<'_>)
    requires { n ≤ width }
    ensures lines { let lines = call_lines (call_members n set (λ x. call (kind_number kind) a x)) in
        Writes text.old lines text.new }
{
    // Not `members`: a record may name routers beyond n, and these get no call.
    for x in 0..n {
        if member(set, x) {
            call_line(kind, a, x as u8, text);
        }
    }
}
