// Calls of the running sheet.
ghost use Rattle.std.specs.Prelude.{◌*◌, ◌+◌, ◌≤◌};
ghost use Rattle.area.specs.Limits.{most_changes};

use crate::{by_hand, show};
use cases::tables::ChangeTables;
use cases::{LONG_LIST, LONG_TABLE, lists, metrics, print, read};
use plan::Change;
use sheet::{in_turn, sheet};

// The sheet of a record made by hand where a word says how many routers it has, and else that of a change.
pub(crate) fn run(rt: &HostRuntime, words: &[u8]) {
    let n = read::value(words, b'i', 256);
    if n < 256 {
        show::routers(rt, n as usize, in_turn(by_hand::record(n as u8, words)));
    } else {
        of_change(rt, words);
    }
}

// The old table and the change list of a case. Every byte that is not of a change is 255, so that an entry there has a
// router that is unknown.
fn of_change(rt: &HostRuntime, words: &[u8]) {
    let mut table = [0; LONG_TABLE];
    let mut list = [255; LONG_LIST];
    metrics::fill(&mut table, words);
    let bytes = lists::fill(&mut list, words);
    parts(rt, words, &table, &list, bytes);
}

fn parts(
    rt: &HostRuntime,
    words: &[u8],
    table: &[u32; LONG_TABLE],
    list: &[u8; LONG_LIST],
    bytes: usize,
)
    requires { bytes ≤ 5 * (most_changes + 2) }
{
    let all = &table[..];
    let changes = &list[..];
    let cells = read::size(words, 0, all.len());
    let change = Change {
        n: read::value(words, b'n', 0) as usize,
        hold_time: read::time(words, b'h', 0),
        step_time: read::time(words, b'm', 1),
        metrics: &all[..cells],
        list: &changes[..bytes],
    };
    call(rt, words, change);
}

// Lends the first cells of longer tables, so that a table can be one cell too short or too long.
fn call(rt: &HostRuntime, words: &[u8], change: Change<'_>) {
    let mut tables = ChangeTables::untouched();
    let cells = read::size(words, 1, LONG_TABLE);
    let mut before = tables.before.lend(words, [2, 3, 4]);
    let mut after = tables.after.lend(words, [5, 6, 7]);
    let made = sheet(
        change,
        &mut tables.metrics[..cells],
        &mut before,
        &mut after,
    );
    print::form(rt, b" changed # # # # # # #", &tables.changed());
    show::sheet(rt, change.n, made);
}
