// Calls of Plan.
ghost use Rattle.std.specs.Prelude.{◌*◌, ◌+◌, ◌≤◌};
ghost use Rattle.area.specs.Limits.{most_changes};

use crate::show;
use cases::tables::ChangeTables;
use cases::{LONG_LIST, LONG_TABLE, lists, metrics, read};
use plan::Change;

// The old table and the change list of a case. Every byte that is not of a change is 255, so that an entry there has a
// router that is unknown.
pub fn run(rt: &HostRuntime, case: &[u8]) {
    let mut table = [0; LONG_TABLE];
    let mut list = [255; LONG_LIST];
    metrics::fill(&mut table, case);
    let bytes = lists::fill(&mut list, case);
    parts(rt, case, &table, &list, bytes);
}

fn parts(
    rt: &HostRuntime,
    case: &[u8],
    table: &[u32; LONG_TABLE],
    list: &[u8; LONG_LIST],
    bytes: usize,
)
    requires { bytes ≤ 5 * (most_changes + 2) }
{
    let all = &table[..];
    let changes = &list[..];
    let cells = read::size(case, 0, all.len());
    let change = Change {
        n: read::value(case, b'n', 0) as usize,
        hold_time: read::time(case, b'h', 0),
        step_time: read::time(case, b'm', 1),
        metrics: &all[..cells],
        list: &changes[..bytes],
    };
    call(rt, case, change);
}

// Lends the first cells of longer tables, so that a table can be one cell too short or too long.
fn call(rt: &HostRuntime, case: &[u8], change: Change<'_>) {
    let mut tables = ChangeTables::untouched();
    let cells = read::size(case, 1, LONG_TABLE);
    let mut before = tables.before.lend(case, [2, 3, 4]);
    let mut after = tables.after.lend(case, [5, 6, 7]);
    let planned = plan::plan(
        change,
        &mut tables.metrics[..cells],
        &mut before,
        &mut after,
    );
    show::planned(rt, change.n, planned, &tables);
}
