// What is left after a file's last step: a line for each router that is not done, and how many answers "ok" are still
// to come.
ghost use Rattle.std.specs.Prelude.{◌≤◌, ◌<◌};
ghost use Rattle.area.specs.Limits.{width};
ghost use Rattle.text.specs.Text.{Writes};
ghost use Rattle.report.specs.Lines.{unfinished_text, unfinished_lines, unfinished_after};

use crate::lines::{Times, unfinished_line};
use machine::states::State;
use needs::missing;
use plan::Record;
use sets::without;
use steps::run;
use steps::timers::{due_time, held_until};
use text::Writer;

// The lines of the routers that are not done after the steps that the bytes stand for, and what is missing there.
#[tactic(auto, using(crate::proofs::LineLaws::written))]
pub(crate) fn printed(fresh: &Record, bytes: &[u8], text: &mut Writer<'_>)
    requires { fresh.now.n ≤ width }
    ensures lines { Writes text.old (unfinished_after fresh.now bytes.now) text.new }
{
    let last = run(*fresh, bytes);
    unfinished_lines(fresh.n as usize, &last, text);
    text.line(b"missing ", missing(last) as u64);
}

// A line for each router below n that is not done.
#[tactic(auto, using(crate::proofs::LineLaws::written), unfolding(crate::specs::Lines::unfinished_lines))]
fn unfinished_lines(n: usize, last: &Record, text: &mut Writer<'_>)
    requires { n ≤ width }
    ensures lines { Writes text.old (unfinished_lines last.now n) text.new }
{
    // By number: a line shows it.
    for i in 0..n {
        unfinished_text(last, i, text);
    }
}

// The line of router i, where it is not done.
#[tactic(auto, using(crate::proofs::LineLaws::written), unfolding(crate::specs::Lines::unfinished_text))]
fn unfinished_text(last: &Record, i: usize, text: &mut Writer<'_>)
    requires { i < width }
    ensures text { Writes text.old (unfinished_text last.now i) text.new }
{
    if last.states[i] == State::Done as u8 {
        return;
    }
    let unwritten = without(last.due[i], last.written[i]);
    let times = Times {
        until: held_until(last.learn_times[i], last.hold_time),
        due: due_time(
            last.learn_times[i],
            last.hold_time,
            last.ranks[i],
            last.step_time,
        ),
    };
    unfinished_line(
        i as u64,
        State::from(last.states[i]),
        last.waiting[i],
        unwritten,
        times,
        text,
    );
}
