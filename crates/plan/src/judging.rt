// Whether an input is planned: Plan's refusals, in the order of 01, and what is found on the way.
//     judge            each part after the other, so that the first refusal is the answer
//     judge_area       3, 36, 8 and 6, of n, the step time, the tables and the metrics
//     judge_length     1, 9 and 10, of the list's length
// The first faulty change is found by crate changes, and the direction by direction.rt, with 11 and 12. What each part
// answers is defined in specs/Parts.antt, and that all of them together are the ladder of specs/Plan.antt is the last
// part of proofs/PlanLaws.antt.
ghost use Rattle.std.specs.Prelude.{◌≡◌, true, ◌*◌, length, IfOk};
ghost use Rattle.area.specs.Limits.{width};
ghost use Rattle.area.specs.Refusals.{verdict_number};
ghost use Rattle.plan.specs.Plan.{plan_refusal};
ghost use Rattle.plan.specs.Parts.{Finds, area_refusal, length_refusal};

use crate::Change;
use crate::direction::{Direction, direction_of};
use area::limits::{ENTRY, MOST_CHANGES, WIDTH};
use area::refusal::Refusal;
use changes::checks::first_refusal;
use changes::root;
use entries::count;
use paths::is_area;

// What is found of an input that is planned.
#[derive(Clone, Copy)]
pub struct Judged {
    pub root: usize,
    pub direction: Direction,
}

// The first refusal of the change, or else its root and direction. `sized` says that every table has the right size.
pub(crate) fn judge(change: Change<'_>, sized: bool) -> Result<Judged, Refusal>
    requires { sized ≡ true → length change.metrics.now ≡ width * width }
    ensures answer { verdict_number result
        ≡ plan_refusal change.entry.n change.entry.step_time change.entry.metrics.now change.entry.list.now sized }
    ensures finds { IfOk result (Finds change.entry.n change.entry.metrics.now change.entry.list.now) }
{
    judge_area(change, sized)?;
    judge_length(change.list)?;
    first_refusal(change.n, change.list)?;
    let direction = direction_of(change.n, change.metrics, change.list)?;
    let root = root::root(change.list);
    if !root::is_common(change.list, root) {
        return Err(Refusal::NoCommonRouter);
    }
    Ok(Judged { root, direction })
}

// The first refusal of n, the step time, the tables and the metrics.
#[tactic(auto, using(crate::proofs::PlanLaws::judged_area))]
fn judge_area(change: Change<'_>, sized: bool) -> Result<(), Refusal>
    requires { sized ≡ true → length change.metrics.now ≡ width * width }
    ensures answer { verdict_number result
        ≡ area_refusal change.entry.n change.entry.step_time change.entry.metrics.now sized }
{
    if !(1..=WIDTH).contains(&change.n) {
        return Err(Refusal::RouterCount);
    }
    if change.step_time == 0 {
        return Err(Refusal::NoStepTime);
    }
    if !sized {
        return Err(Refusal::TableSize);
    }
    if !is_area(change.n, change.metrics) {
        return Err(Refusal::Metric);
    }
    Ok(())
}

// The first refusal of the length of the list.
#[tactic(auto, unfolding(crate::specs::Parts::length_refusal))]
fn judge_length(list: &[u8]) -> Result<(), Refusal>
    ensures answer { verdict_number result ≡ length_refusal list.now }
{
    if list.len() % ENTRY != 0 {
        return Err(Refusal::Incomplete);
    }
    match count(list) {
        0 => Err(Refusal::NoChange),
        1..=MOST_CHANGES => Ok(()),
        _ => Err(Refusal::TooMany),
    }
}
