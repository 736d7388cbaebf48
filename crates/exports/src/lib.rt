// The bench for programs in C or Rust: each call under a plain name, with numbers, slices and arrays in place of
// structs and enums. A refusal is its number, 0 where nothing is refused; a record is lent field by field.
//     ofib_read                       Read: the file's metrics, and what it says of itself
//     ofib_isis                       the metrics of an area from IS-IS
//     ofib_paths, ofib_plan           Paths and Plan
//     ofib_sheet                      the running sheet of a plan
//     ofib_step, ofib_run             one step, and all the steps of a list
//     ofib_needs, ofib_missing        how many calls a change takes, and how many of them are still to come
//     ofib_rehearse, ofib_routes      the texts that the programs print
// Module `fields` takes a record from its fields and puts it back, and makes a number of a step's answer. Each function
// promises what the call under it promises: the same definitions, over the numbers of specs/Fields.antt and
// specs/Exports.antt. What goes over with a refusal is proofs/Handing.antt.
#![tactic(auto)]

mod fields;

ghost use Rattle.std.specs.Prelude.{◌≡◌};
ghost use Rattle.paths.specs.Paths.{paths_in, paths_refusal, paths_of};
ghost use Rattle.plan.specs.declared.Record.{Record};
ghost use Rattle.plan.specs.Plan.{tables_in, are_tables, plan_refusal, record_of, tables_of};
ghost use Rattle.sheet.specs.Sheet.{sheet_of};
ghost use Rattle.machine.specs.Machine.{over, timed, step_of};
ghost use Rattle.machine.specs.Run.{run, calls_of};
ghost use Rattle.needs.specs.Needs.{needs, missing};
ghost use Rattle.bench_file.specs.Read.{read_refusal, contents_of, metrics_of};
ghost use Rattle.isis.specs.Isis.{isis_refusal, isis_metrics};
ghost use Rattle.text.specs.Text.{Appended};
ghost use Rattle.prepare.specs.Bench.{tables_at};
ghost use Rattle.report.specs.Report.{rehearsal, routes};
ghost use Rattle.exports.specs.Fields.{record_from, reply_number};
ghost use Rattle.exports.specs.Exports.{numbers};

use area::limits::{Set, WIDTH};
use area::refusal::number_of;
use fields::{Places, reply_number};
use paths::Topology;
use plan::{Change, blank};
use report::Text;
use sheet::in_turn;
use steps::lent::Lent;

// Read. `contents` gets n, the number of links, the number of changes and where they begin, the number of steps and
// where they begin, the hold time and the step time.
#[tactic(auto, using(crate::proofs::Handing::refused))]
#[unsafe(no_mangle)]
pub extern "C" fn ofib_read(file: &[u8], table: &mut [u32], contents: &mut [usize; 8]) -> u8
    ensures answer { result ≡ read_refusal file.now table.old }
    ensures contents { contents.new
        ≡ numbers (contents_of file.now table.old) }
    ensures metrics { table.new
        ≡ metrics_of file.now table.old }
{
    let answer = bench_file::read(file, table);
    *contents = match answer {
        Ok(found) => [
            found.n,
            found.links,
            found.changes.count,
            found.changes.at,
            found.steps.count,
            found.steps.at,
            usize::from(found.hold_time),
            usize::from(found.step_time),
        ],
        Err(_) => [0; 8],
    };
    number_of(&answer)
}

// The metrics of an area from IS-IS: a table of identities, and a list for each of the n routers.
#[unsafe(no_mangle)]
pub extern "C" fn ofib_isis(n: usize, identities: &[u8], lists: &[u8], table: &mut [u32]) -> u8
    ensures answer { result ≡ isis_refusal n identities.now lists.now table.old }
    ensures metrics { table.new
        ≡ isis_metrics n identities.now lists.now table.old }
{
    number_of(&isis::read(n, identities, lists, table))
}

// Paths.
#[unsafe(no_mangle)]
pub extern "C" fn ofib_paths<'a>(
    n: usize,
    metric: &[u32],
    dist: &'a mut [u32],
    hops: &'a mut [Set],
    fours: &'a mut [Set],
) -> u8
    ensures answer { let lent = paths_in dist.old hops.old fours.old in
        result ≡ paths_refusal n metric.now lent }
    ensures tables { let lent = paths_in dist.old hops.old fours.old in
        paths_in dist.new hops.new fours.new ≡ paths_of n metric.now lent }
{
    let mut tables = Topology { dist, hops, fours };
    number_of(&paths::paths(n, metric, &mut tables))
}

// Plan. The record that it hands back is put into the thirteen last places.
#[tactic(auto, using(crate::proofs::Handing::refused))]
#[unsafe(no_mangle)]
pub extern "C" fn ofib_plan<'a>(
    n: usize,
    hold_time: u16,
    step_time: u16,
    old: &[u32],
    list: &[u8],
    new: &mut [u32],
    old_dist: &'a mut [u32],
    old_hops: &'a mut [Set],
    old_fours: &'a mut [Set],
    new_dist: &'a mut [u32],
    new_hops: &'a mut [Set],
    new_fours: &'a mut [Set],
    routers: &'a mut u8,
    root: &'a mut u8,
    direction: &'a mut u8,
    ranks: &'a mut [u8; WIDTH],
    waiting: &'a mut [Set; WIDTH],
    telling: &'a mut [Set; WIDTH],
    due: &'a mut [Set; WIDTH],
    states: &'a mut [u8; WIDTH],
    written: &'a mut [Set; WIDTH],
    record_hold_time: &'a mut u16,
    record_step_time: &'a mut u16,
    clock: &'a mut u32,
    learn_times: &'a mut [u32; WIDTH],
) -> u8
    ensures answer { let lent = tables_in new.old
        old_dist.old old_hops.old old_fours.old
        new_dist.old new_hops.old new_fours.old in
        result
        ≡ plan_refusal n step_time old.now list.now (are_tables old.now lent) }
    ensures record { let lent = tables_in new.old
        old_dist.old old_hops.old old_fours.old
        new_dist.old new_hops.old new_fours.old in
        record_from routers.new root.new direction.new
        ranks.new waiting.new telling.new due.new
        states.new written.new
        record_hold_time.new record_step_time.new clock.new
        learn_times.new
        ≡ record_of n hold_time step_time old.now list.now lent }
    ensures tables { let lent = tables_in new.old
        old_dist.old old_hops.old old_fours.old
        new_dist.old new_hops.old new_fours.old in
        tables_in new.new
        old_dist.new old_hops.new old_fours.new
        new_dist.new new_hops.new new_fours.new
        ≡ tables_of n step_time old.now list.now lent }
{
    let change = Change {
        n,
        hold_time,
        step_time,
        metrics: old,
        list,
    };
    let mut before = Topology {
        dist: old_dist,
        hops: old_hops,
        fours: old_fours,
    };
    let mut after = Topology {
        dist: new_dist,
        hops: new_hops,
        fours: new_fours,
    };
    let answer = plan::plan(change, new, &mut before, &mut after);
    let mut places = Places {
        routers,
        root,
        direction,
        ranks,
        waiting,
        telling,
        due,
        states,
        written,
        hold_time: record_hold_time,
        step_time: record_step_time,
        clock,
        learn_times,
    };
    places.put(match answer {
        Ok(record) => record,
        Err(_) => blank(),
    });
    number_of(&answer)
}

// The running sheet: Plan's input and tables, and `routers` gets the routers in their order.
#[tactic(auto, using(crate::proofs::Handing::refused))]
#[unsafe(no_mangle)]
pub extern "C" fn ofib_sheet<'a>(
    n: usize,
    hold_time: u16,
    step_time: u16,
    old: &[u32],
    list: &[u8],
    new: &mut [u32],
    old_dist: &'a mut [u32],
    old_hops: &'a mut [Set],
    old_fours: &'a mut [Set],
    new_dist: &'a mut [u32],
    new_hops: &'a mut [Set],
    new_fours: &'a mut [Set],
    routers: &mut [u8; WIDTH],
) -> u8
    ensures answer { let lent = tables_in new.old
        old_dist.old old_hops.old old_fours.old
        new_dist.old new_hops.old new_fours.old in
        result
        ≡ plan_refusal n step_time old.now list.now (are_tables old.now lent) }
    ensures routers { let lent = tables_in new.old
        old_dist.old old_hops.old old_fours.old
        new_dist.old new_hops.old new_fours.old in
        routers.new
        ≡ sheet_of (record_of n hold_time step_time old.now list.now lent) }
    ensures tables { let lent = tables_in new.old
        old_dist.old old_hops.old old_fours.old
        new_dist.old new_hops.old new_fours.old in
        tables_in new.new
        old_dist.new old_hops.new old_fours.new
        new_dist.new new_hops.new new_fours.new
        ≡ tables_of n step_time old.now list.now lent }
{
    let change = Change {
        n,
        hold_time,
        step_time,
        metrics: old,
        list,
    };
    let mut before = Topology {
        dist: old_dist,
        hops: old_hops,
        fours: old_fours,
    };
    let mut after = Topology {
        dist: new_dist,
        hops: new_hops,
        fours: new_fours,
    };
    let answer = sheet::sheet(change, new, &mut before, &mut after);
    *routers = match answer {
        Ok(made) => made,
        Err(_) => in_turn(blank()),
    };
    number_of(&answer)
}

// Step. It reads all of a record but root and direction, and changes four of the tables per router and the clock. The
// answer is 0 for ok, 255 for ignored, and the number of a refusal.
#[unsafe(no_mangle)]
pub extern "C" fn ofib_step<'a>(
    n: u8,
    ranks: &'a [u8; WIDTH],
    waiting: &'a mut [Set; WIDTH],
    telling: &'a [Set; WIDTH],
    due: &'a [Set; WIDTH],
    states: &'a mut [u8; WIDTH],
    written: &'a mut [Set; WIDTH],
    hold_time: u16,
    step_time: u16,
    clock: &'a mut u32,
    learn_times: &'a mut [u32; WIDTH],
    kind: u8,
    a: u8,
    b: u8,
) -> u8
    ensures answer { (x : Record) →
        let before = over
        (timed x ranks.now hold_time step_time clock.old learn_times.old)
        n waiting.old telling.now due.now
        states.old written.old in
        result ≡ reply_number (step_of before kind a b).reply }
    ensures record { (x : Record) →
        let before = over
        (timed x ranks.now hold_time step_time clock.old learn_times.old)
        n waiting.old telling.now due.now
        states.old written.old in
        over
        (timed x ranks.now hold_time step_time clock.new learn_times.new)
        n waiting.new telling.now due.now
        states.new written.new
        ≡ (step_of before kind a b).next }
{
    let mut lent = Lent {
        n,
        ranks,
        waiting,
        telling,
        due,
        states,
        written,
        hold_time,
        step_time,
        clock,
        learn_times,
    };
    reply_number(lent.step(kind, a, b))
}

// All the steps that the bytes stand for, three bytes each. The thirteen first places are the record, and get the last
// one.
#[unsafe(no_mangle)]
pub extern "C" fn ofib_run<'a>(
    routers: &'a mut u8,
    root: &'a mut u8,
    direction: &'a mut u8,
    ranks: &'a mut [u8; WIDTH],
    waiting: &'a mut [Set; WIDTH],
    telling: &'a mut [Set; WIDTH],
    due: &'a mut [Set; WIDTH],
    states: &'a mut [u8; WIDTH],
    written: &'a mut [Set; WIDTH],
    hold_time: &'a mut u16,
    step_time: &'a mut u16,
    clock: &'a mut u32,
    learn_times: &'a mut [u32; WIDTH],
    bytes: &[u8],
)
    ensures record { let first = record_from routers.old root.old direction.old
        ranks.old waiting.old telling.old due.old
        states.old written.old
        hold_time.old step_time.old clock.old learn_times.old in
        record_from routers.new root.new direction.new
        ranks.new waiting.new telling.new due.new
        states.new written.new
        hold_time.new step_time.new clock.new learn_times.new
        ≡ run first (calls_of bytes.now) }
{
    let mut places = Places {
        routers,
        root,
        direction,
        ranks,
        waiting,
        telling,
        due,
        states,
        written,
        hold_time,
        step_time,
        clock,
        learn_times,
    };
    let first = places.record();
    places.put(steps::run(first, bytes));
}

// How many calls are answered ok until all routers are done. n and two of the tables per router are all that it reads
// of a fresh record.
#[unsafe(no_mangle)]
pub extern "C" fn ofib_needs(n: u8, waiting: &[Set; WIDTH], due: &[Set; WIDTH]) -> usize
    ensures count { (x : Record) →
        result ≡ needs (over x n waiting.now x.telling due.now x.states x.written) }
{
    needs::lent::needs(n, waiting, due)
}

// How many of these are still to come. n and four of the tables per router are all that it reads of a record.
#[unsafe(no_mangle)]
pub extern "C" fn ofib_missing(
    n: u8,
    waiting: &[Set; WIDTH],
    due: &[Set; WIDTH],
    states: &[u8; WIDTH],
    written: &[Set; WIDTH],
) -> usize
    ensures count { (x : Record) →
        let now = over x n waiting.now x.telling due.now
        states.now written.now in
        result ≡ missing now }
{
    needs::lent::missing(n, waiting, due, states, written)
}

// The text of the rehearsal of a file.
#[unsafe(no_mangle)]
pub extern "C" fn ofib_rehearse<'a>(
    file: &[u8],
    old: &mut [u32],
    new: &mut [u32],
    old_dist: &'a mut [u32],
    old_hops: &'a mut [Set],
    old_fours: &'a mut [Set],
    new_dist: &'a mut [u32],
    new_hops: &'a mut [Set],
    new_fours: &'a mut [Set],
    out: &mut [u8],
) -> usize
    ensures text { let lent = tables_in new.old
        old_dist.old old_hops.old old_fours.old
        new_dist.old new_hops.old new_fours.old in
        Appended out.old 0
        (rehearsal file.now old.old lent) out.new result }
    ensures metrics { old.new ≡ metrics_of file.now old.old }
    ensures tables { let lent = tables_in new.old
        old_dist.old old_hops.old old_fours.old
        new_dist.old new_hops.old new_fours.old in
        let left = tables_in new.new
        old_dist.new old_hops.new old_fours.new
        new_dist.new new_hops.new new_fours.new in
        left ≡ tables_at file.now old.old lent }
{
    let mut before = Topology {
        dist: old_dist,
        hops: old_hops,
        fours: old_fours,
    };
    let mut after = Topology {
        dist: new_dist,
        hops: new_hops,
        fours: new_fours,
    };
    report::print(
        Text::Rehearsal,
        file,
        old,
        new,
        &mut before,
        &mut after,
        out,
    )
}

// The text of the routes of a file.
#[unsafe(no_mangle)]
pub extern "C" fn ofib_routes<'a>(
    file: &[u8],
    old: &mut [u32],
    new: &mut [u32],
    old_dist: &'a mut [u32],
    old_hops: &'a mut [Set],
    old_fours: &'a mut [Set],
    new_dist: &'a mut [u32],
    new_hops: &'a mut [Set],
    new_fours: &'a mut [Set],
    out: &mut [u8],
) -> usize
    ensures text { let lent = tables_in new.old
        old_dist.old old_hops.old old_fours.old
        new_dist.old new_hops.old new_fours.old in
        Appended out.old 0 (routes file.now old.old lent) out.new result }
    ensures metrics { old.new ≡ metrics_of file.now old.old }
    ensures tables { let lent = tables_in new.old
        old_dist.old old_hops.old old_fours.old
        new_dist.old new_hops.old new_fours.old in
        let left = tables_in new.new
        old_dist.new old_hops.new old_fours.new
        new_dist.new new_hops.new new_fours.new in
        left ≡ tables_at file.now old.old lent }
{
    let mut before = Topology {
        dist: old_dist,
        hops: old_hops,
        fours: old_fours,
    };
    let mut after = Topology {
        dist: new_dist,
        hops: new_hops,
        fours: new_fours,
    };
    report::print(Text::Routes, file, old, new, &mut before, &mut after, out)
}
