// The plan of one change: root, direction, who waits for whom, ranks, and what is due.
//     plan       Plan: what it refuses, and what it hands back and fills
//     judging    its refusals, in the order of 01; with them the root and the direction are found
//     direction  which way the usable metrics go
//     metrics    the metric table after the change
//     fill       the tables (`topologies`: by Paths over the old metrics and the new ones), and from them the record
//     fresh      the record, by the order of crate order
// What Plan promises is specs/Plan.antt, with specs/NewMetrics.antt, specs/Direction.antt and specs/Waiting.antt; what
// the functions below promise to each other is specs/Parts.antt. The argument is in proofs/PlanLaws.antt for the
// refusals, in proofs/DirectionLaws.antt for the direction, in proofs/Copying.antt and proofs/Applying.antt for the
// metrics, in proofs/Filling.antt for the tables and proofs/Recording.antt for the record.
#![tactic(auto)]

mod direction;
mod judging;
mod metrics;

ghost use Rattle.std.specs.Prelude.{◌≡◌, ◌≤◌, ◌<◌, IfOk};
ghost use Rattle.area.specs.Limits.{width};
ghost use Rattle.area.specs.Refusals.{verdict_number};
ghost use Rattle.order.specs.Order.{order_of, due_table};
ghost use Rattle.paths.specs.Paths.{AreSame};
ghost use Rattle.plan.specs.Plan.{tables_held, are_tables, fresh, blank, filled, refusal_of, record_by, tables_by};
ghost use Rattle.plan.specs.Planned.{Plan, Sized};
ghost use Rattle.plan.specs.Parts.{Finds, is_rising, started};

use area::limits::{CELLS, Set, WIDTH};
use area::refusal::Refusal;
use direction::Direction;
use judging::{Judged, judge};
use order::{Order, due_table, order_of};
use paths::{Topology, paths};

// A plan's record. Entry r of a table per router belongs to router r, and is 0 from n on. Direction and states are
// numbers, as 01 and C have them.
#[derive(Clone, Copy)]
pub struct Record {
    pub n: u8,
    pub root: u8,
    // 1 for a rise, 2 for a fall.
    pub direction: u8,
    pub ranks: [u8; WIDTH],
    pub waiting: [Set; WIDTH],
    pub telling: [Set; WIDTH],
    pub due: [Set; WIDTH],
    // 0 idle, 1 holding, 2 ongoing, 3 done.
    pub states: [u8; WIDTH],
    pub written: [Set; WIDTH],
    // The rank timers: hold time and step time, in ticks; the ticks so far, and how many these were when each router
    // learned of the change, 0 until it does.
    pub hold_time: u16,
    pub step_time: u16,
    pub clock: u32,
    pub learn_times: [u32; WIDTH],
}

// A change to an area: n routers, the hold time and the step time of the rank timers, the metrics before the change,
// and the change list.
#[derive(Clone, Copy)]
pub struct Change<'a> {
    pub n: usize,
    pub hold_time: u16,
    pub step_time: u16,
    pub metrics: &'a [u32],
    pub list: &'a [u8],
}

// Plan: the record of a change, with the new metrics and both topologies' distances, next hops and sets of four, or a
// refusal that writes no cell.
pub fn plan(
    change: Change<'_>,
    metrics: &mut [u32],
    old: &mut Topology<'_>,
    new: &mut Topology<'_>,
) -> Result<Record, Refusal>
    ensures answer { let lent = tables_held metrics.old old.old new.old in
        verdict_number result ≡ refusal_of change.entry lent }
    ensures plan { let lent = tables_held metrics.old old.old new.old in
        IfOk result (λ x. x ≡ record_by change.entry lent) }
    ensures tables { let lent = tables_held metrics.old old.old new.old in
        let left = tables_held metrics.new old.new new.new in
        left ≡ tables_by change.entry lent }
    ensures same { AreSame old.old old.new × AreSame new.old new.new }
{
    let sized = are_tables(change.metrics, metrics, old, new);
    let judged = judge(change, sized)?;
    Ok(fill(change, judged, metrics, old, new))
}

// The tables and the record of an input that is planned.
fn fill(
    change: Change<'_>,
    judged: Judged,
    metrics: &mut [u32],
    old: &mut Topology<'_>,
    new: &mut Topology<'_>,
) -> Record
    requires plan { Plan change.n change.metrics.now change.list.now }
    requires judged { Finds change.n change.metrics.now change.list.now judged }
    requires sized { let lent = tables_held metrics.old old.old new.old in
        Sized change.metrics.now lent }
    ensures value { result ≡ fresh change.entry.n change.entry.hold_time change.entry.step_time
        change.entry.metrics.now change.entry.list.now }
    ensures left_value { let left = tables_held metrics.new old.new new.new in
        left ≡ filled change.entry.n change.entry.metrics.now change.entry.list.now }
    ensures same { AreSame old.old old.new × AreSame new.old new.new }
{
    topologies(change, metrics, old, new);
    fresh(change, judged, old, new)
}

// The new metrics, and the tables of both topologies.
fn topologies(
    change: Change<'_>,
    metrics: &mut [u32],
    old: &mut Topology<'_>,
    new: &mut Topology<'_>,
)
    requires plan { Plan change.n change.metrics.now change.list.now }
    requires sized { let lent = tables_held metrics.old old.old new.old in
        Sized change.metrics.now lent }
    ensures left_value { let left = tables_held metrics.new old.new new.new in
        left ≡ filled change.entry.n change.entry.metrics.now change.entry.list.now }
    ensures same { AreSame old.old old.new × AreSame new.old new.new }
{
    metrics::apply(change.n, change.metrics, change.list, metrics);
    // What was judged is what Paths asks for, so it refuses neither topology.
    let _ = paths(change.n, change.metrics, old);
    let _ = paths(change.n, metrics, new);
}

// Has every table the right size?
#[tactic(auto, using(area::proofs::SizeLaws::table_is), unfolding(crate::specs::Plan::are_tables))]
fn are_tables(before: &[u32], after: &[u32], old: &Topology<'_>, new: &Topology<'_>) -> bool
    ensures { let lent = tables_held after.now old.now new.now in
        result ≡ are_tables before.now lent }
{
    before.len() == CELLS && after.len() == CELLS && old.are_sized() && new.are_sized()
}

// The record of a plan that was refused: all zeros.
#[tactic(auto, unfolding(crate::specs::Plan::blank))]
pub fn blank() -> Record
    ensures zeros { result ≡ blank }
{
    Record {
        n: 0,
        root: 0,
        direction: 0,
        ranks: [0; WIDTH],
        waiting: [0; WIDTH],
        telling: [0; WIDTH],
        due: [0; WIDTH],
        states: [0; WIDTH],
        written: [0; WIDTH],
        hold_time: 0,
        step_time: 0,
        clock: 0,
        learn_times: [0; WIDTH],
    }
}

// The record of a plan that was accepted, before the first step: full sets decide who waits for whom, and sets of four
// what is due.
fn fresh(change: Change<'_>, judged: Judged, old: &Topology<'_>, new: &Topology<'_>) -> Record
    requires { (change.n ≤ width) × (judged.root < width) }
    ensures { let rising = is_rising judged.direction in
        result ≡ started change.entry.n change.entry.hold_time change.entry.step_time judged.root rising
        (order_of change.entry.n judged.root rising old.now.hops.now new.now.hops.now)
        (due_table change.entry.n old.now.fours.now new.now.fours.now) }
{
    let rising = judged.direction == Direction::Rise;
    let Order {
        ranks,
        waiting,
        telling,
    } = order_of(change.n, judged.root, rising, old.hops, new.hops);
    let due = due_table(change.n, old.fours, new.fours);
    Record {
        n: change.n as u8,
        root: judged.root as u8,
        direction: judged.direction as u8,
        ranks,
        waiting,
        telling,
        due,
        states: [0; WIDTH],
        written: [0; WIDTH],
        hold_time: change.hold_time,
        step_time: change.step_time,
        clock: 0,
        learn_times: [0; WIDTH],
    }
}
