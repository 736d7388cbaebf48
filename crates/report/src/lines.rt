// The lines that the programs print, each appended to a text.
ghost use Rattle.std.specs.Prelude.{◌++◌, ◌<◌};
ghost use Rattle.area.specs.Limits.{width};
ghost use Rattle.machine.specs.Answers.{reply_of};
ghost use Rattle.text.specs.Text.{Writes};
ghost use Rattle.report.specs.Lines.{router_line_of, answer_text, step_line, path_text, route_line};
ghost use Rattle.report.specs.Lines.{member_text, set_text, turn_line};
ghost use Rattle.report.specs.Lines.{state_word, hold_text, wait_text, unfinished_line};

use area::limits::{Set, UNREACHED, WIDTH};
use machine::states::State;
use machine::{Answer, Effect};
use plan::Record;
use sets::member;
use text::Writer;

// The distance between two routers, and the next-hop set by which it is reached.
#[derive(Clone, Copy)]
pub struct Path {
    pub distance: u32,
    pub hops: Set,
}

// When a router holds until, and when its timer lets it go.
#[derive(Clone, Copy)]
pub(crate) struct Times {
    pub(crate) until: u64,
    pub(crate) due: u64,
}

// The line of router i of a record.
pub(crate) fn router_line(i: usize, record: &Record, text: &mut Writer<'_>)
    requires { i < width }
    ensures line { Writes text.old (router_line_of record.now i) text.new }
{
    text.field(b"router ", i as u64);
    text.field(b" rank ", record.ranks[i] as u64);
    text.field(b" waits ", record.waiting[i]);
    text.field(b" tells ", record.telling[i]);
    text.line(b" due ", record.due[i]);
}

// The line of step k.
#[tactic(auto, using(crate::proofs::LineLaws::written), unfolding(crate::specs::Lines::step_line))]
pub(crate) fn step_line(k: u64, answer: Answer, text: &mut Writer<'_>)
    ensures line { Writes text.old (step_line k (reply_of answer)) text.new }
{
    text.field(b"step ", k);
    answer_text(answer, text);
}

// An answer, up to the end of its line.
#[tactic(auto, using(crate::proofs::LineLaws::written), unfolding(crate::specs::Lines::answer_text))]
fn answer_text(answer: Answer, text: &mut Writer<'_>)
    ensures text { Writes text.old (answer_text (reply_of answer)) text.new }
{
    match answer {
        Ok(Effect::Applied) => text.append(b" ok\n"),
        Ok(Effect::Ignored) => text.append(b" ignored\n"),
        Err(why) => {
            text.append(b" ");
            text.refused_line(why.number());
        }
    }
}

// The line of the pair (i, j): its path before the change, and after it.
pub(crate) fn route_line(i: u64, j: u64, before: Path, after: Path, text: &mut Writer<'_>)
    ensures line { Writes text.old (route_line i j before after) text.new }
{
    text.field(b"route ", i);
    text.field(b" ", j);
    text.append(b" old");
    path_text(before, text);
    text.append(b" new");
    path_text(after, text);
    text.append(b"\n");
}

// A distance and the next hops, or that there is no walk.
#[tactic(auto, using(crate::proofs::LineLaws::written), unfolding(crate::specs::Lines::path_text))]
fn path_text(path: Path, text: &mut Writer<'_>)
    ensures text { Writes text.old (path_text path) text.new }
{
    if path.distance == UNREACHED {
        text.append(b" none");
    } else {
        text.field(b" ", path.distance as u64);
        text.field(b" via ", path.hops);
    }
}

// The line of turn k: the router, the destinations that it writes, and the routers that it tells.
pub(crate) fn turn_line(k: u64, router: u8, writes: Set, tells: Set, text: &mut Writer<'_>)
    ensures line { Writes text.old (turn_line k router writes tells) text.new }
{
    text.field(b"turn ", k);
    text.field(b" router ", router as u64);
    text.append(b" writes");
    set_text(writes, text);
    text.append(b" tells");
    set_text(tells, text);
    text.append(b"\n");
}

// The line of router i, in a state: whom it still waits for, what is due there and unwritten, and its times.
pub(crate) fn unfinished_line(
    i: u64,
    state: State,
    waits: Set,
    unwritten: Set,
    times: Times,
    text: &mut Writer<'_>,
)
    ensures line { Writes text.old
        (unfinished_line i state waits unwritten times.until times.due) text.new }
{
    text.field(b"router ", i);
    state_word(state, text);
    text.append(b" waits");
    set_text(waits, text);
    text.append(b" unwritten");
    set_text(unwritten, text);
    hold_text(state, times.until, text);
    wait_text(state, waits, times.due, text);
    text.append(b"\n");
}

// Until when a router holds, where it does.
#[tactic(auto, using(crate::proofs::LineLaws::written), unfolding(crate::specs::Lines::hold_text))]
fn hold_text(state: State, until: u64, text: &mut Writer<'_>)
    ensures text { Writes text.old (hold_text state until) text.new }
{
    match state {
        State::Holding => text.field(b" holds until ", until),
        State::Idle | State::Ongoing | State::Done => {}
    }
}

// When the timer lets a router go, where it has learned and waits for others.
#[tactic(auto, using(crate::proofs::LineLaws::written), unfolding(crate::specs::Lines::wait_text, crate::specs::Lines::last_wait))]
fn wait_text(state: State, waits: Set, due: u64, text: &mut Writer<'_>)
    ensures text { Writes text.old (wait_text state waits due) text.new }
{
    if waits != 0 {
        match state {
            State::Holding | State::Ongoing => text.field(b" waits until ", due),
            State::Idle | State::Done => {}
        }
    }
}

// The name of a state.
#[tactic(auto, unfolding(crate::specs::Lines::state_word))]
fn state_word(state: State, text: &mut Writer<'_>)
    ensures text { Writes text.old (state_word state) text.new }
{
    match state {
        State::Idle => text.append(b" idle"),
        State::Holding => text.append(b" holding"),
        State::Ongoing => text.append(b" ongoing"),
        State::Done => text.append(b" done"),
    }
}

// The members of a set, or that it has none.
#[tactic(auto, unfolding(crate::specs::Lines::set_text))]
fn set_text(set: Set, text: &mut Writer<'_>)
    ensures text { Writes text.old (set_text set) text.new }
{
    if set == 0 {
        text.append(b" none");
    } else {
        member_text(set, text);
    }
}

// The members of a set, each after a space.
#[tactic(auto, using(crate::proofs::LineLaws::written), unfolding(crate::specs::Lines::member_text, crate::specs::Lines::member_word))]
fn member_text(set: Set, text: &mut Writer<'_>)
    ensures text { Writes text.old (member_text set width) text.new }
{
    // Number by number, as `member_text` of specs/Lines.antt goes: that is as short as a loop over `members`.
    for k in 0..WIDTH {
        if member(set, k) {
            text.field(b" ", k as u64);
        }
    }
}
