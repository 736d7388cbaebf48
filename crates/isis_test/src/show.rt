// What is shown of a metric table. Its last cell is behind those that belong to it, and is lent only in a call that
// is refused for the size.
use crate::call::OLD;
use area::limits::{CELLS, WIDTH};
use cases::{LONG_TABLE, compare, print};

const UNUSED: u32 = 16777215;

// `untouched`, `no link`, or the links one after another; and then whether the cell behind the table was written.
pub fn table(rt: &HostRuntime, table: &[u32; LONG_TABLE]) {
    if compare::changed(&compare::wide(table), OLD as u64) == 0 {
        print::text(rt, b" untouched\n");
        return;
    }
    if count(table) == 0 {
        print::text(rt, b" no link");
    }
    links(rt, table, b" #>#=#");
    if table[CELLS] != OLD {
        print::text(rt, b" and the cell behind");
    }
    print::byte(rt, b'\n');
}

// How many cells hold something else than the metric of a link that is not used.
pub fn count(table: &[u32; LONG_TABLE]) -> u64 {
    compare::beyond_pairs(0, &compare::wide(table), UNUSED as u64)
}

// The links in the order of the table, each in this form: the two routers, and the metric.
pub fn links(rt: &HostRuntime, table: &[u32; LONG_TABLE], form: &[u8]) {
    for (k, metric) in table.iter().take(CELLS).enumerate() {
        link(rt, k, *metric, form);
    }
}

fn link(rt: &HostRuntime, k: usize, metric: u32, form: &[u8]) {
    let i = k / WIDTH;
    let j = k % WIDTH;
    if metric != UNUSED {
        print::form(rt, form, &[i as u64, j as u64, u64::from(metric)]);
    }
}
