// What is shown of a call, by the mark of n.
ghost use Rattle.std.specs.Prelude.{◌<◌, ◌*◌};
ghost use Rattle.area.specs.Limits.{width};

use area::limits::{CELLS, WIDTH};
use cases::tables::{Cell, Tables};
use cases::{LONG_TABLE, metrics, print, read};

pub fn call(rt: &HostRuntime, case: &[u8], n: usize, tables: &Tables) {
    let mark = read::mark(case, 0);
    match mark {
        b'r' => print::form(rt, b" changed # # #\n", &tables.changed()),
        b'b' => print::form(rt, b" stray # # #\n", &tables.stray(n)),
        b's' => print::form(rt, b" differing # # #\n", &tables.differing(&clean())),
        _ => rows(rt, mark, n, tables),
    }
}

// What three routers give in tables with nothing else in them. From 0 to 2 the way by 1 costs as much as the link.
fn clean() -> Tables {
    let mut metric = [0; LONG_TABLE];
    metrics::fill(&mut metric, b" 0-1=1 1-2=1 0-2=2");
    of_three(&metric)
}

fn of_three(metric: &[u32; LONG_TABLE]) -> Tables {
    let all = &metric[..];
    let given = &all[0..CELLS];
    let mut tables = Tables::of(Cell {
        distance: 7,
        full: 7,
        four: 7,
    });
    // Of no words, so that each has the size of a table.
    let mut lent = tables.lend(b"", [1, 2, 3]);
    let _ = paths::paths(3, given, &mut lent);
    tables
}

// The pairs of some routers or of all, and for a large area a checksum of each table.
fn rows(rt: &HostRuntime, mark: u8, n: usize, tables: &Tables) {
    print::byte(rt, b'\n');
    // By the number of the cell: it says the two routers, and each of the three tables has it.
    for k in 0..CELLS {
        pair(rt, mark, n, k, tables);
    }
    if mark == b'l' {
        print::form(rt, b"checksums # # #\n", &tables.checksums());
    }
}

// Cell k, where its two routers are among the n and the row of the first is shown.
fn pair(rt: &HostRuntime, mark: u8, n: usize, k: usize, tables: &Tables)
    requires { k < width * width }
{
    let i = k / WIDTH;
    let j = k % WIDTH;
    if i < n && j < n && is_shown(mark, n, i) {
        print::form(
            rt,
            b"# # distance # hops # four #\n",
            &[
                i as u64,
                j as u64,
                u64::from(tables.dist[k]),
                tables.hops[k],
                tables.fours[k],
            ],
        );
    }
}

// Is the row of router i shown?
fn is_shown(mark: u8, n: usize, i: usize) -> bool {
    match mark {
        b'e' => i == 0 || n.checked_sub(1) == Some(i),
        b'l' => i == 0 || i == 31 || i == 63,
        _ => true,
    }
}
