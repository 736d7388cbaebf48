// Calls of Paths. The first number of a case is n, and its mark says what is shown of the call.
use crate::show;
use area::refusal::number_of;
use cases::tables::{Cell, Tables};
use cases::{LONG_TABLE, metrics, print, read};

// What the tables hold before a call: numbers that no call writes.
const UNTOUCHED: Cell = Cell {
    distance: 777777777,
    full: 8888888888888888888,
    four: 8888888888888888889,
};

// Paths, or with the mark i the test of n and the metrics alone.
pub fn run(rt: &HostRuntime, case: &[u8]) {
    let mut metric = [0; LONG_TABLE];
    metrics::fill(&mut metric, case);
    if read::mark(case, 0) == b'i' {
        area(rt, case, &metric);
    } else {
        paths(rt, case, &metric);
    }
}

fn area(rt: &HostRuntime, case: &[u8], metric: &[u32; LONG_TABLE]) {
    let cells = read::size(case, 0, LONG_TABLE);
    if paths::is_area(read::number(case, 0) as usize, &metric[..cells]) {
        print::text(rt, b" area\n");
    } else {
        print::text(rt, b" no area\n");
    }
}

// A call with the first cells of longer tables, so that a table can be one cell too short or too long.
fn paths(rt: &HostRuntime, case: &[u8], metric: &[u32; LONG_TABLE]) {
    let n = read::number(case, 0) as usize;
    let given = &metric[..read::size(case, 0, LONG_TABLE)];
    let mut tables = Tables::of(UNTOUCHED);
    let mut lent = tables.lend(case, [1, 2, 3]);
    let answer = number_of(&paths::paths(n, given, &mut lent));
    print::form(rt, b": #", &[u64::from(answer)]);
    show::call(rt, case, n, &tables);
}
