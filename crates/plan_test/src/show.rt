// What is shown of a call.
use crate::fresh;
use area::limits::WIDTH;
use area::refusal::{Refusal, number_of};
use cases::print;
use cases::tables::ChangeTables;
use plan::Record;

// The answer and the record, and what became of the tables. A refusal is shown with a record of zeros.
pub fn planned(
    rt: &HostRuntime,
    n: usize,
    planned: Result<Record, Refusal>,
    tables: &ChangeTables,
) {
    let answer = number_of(&planned);
    match planned {
        Ok(record) => {
            whole(rt, answer, record);
            print::byte(rt, b'\n');
            fresh::routers(rt, n, record);
            way(rt, n, tables);
            filled(rt, n, tables);
        }
        Err(_) => {
            whole(rt, answer, plan::blank());
            print::form(rt, b" changed # # # # # # #\n", &tables.changed());
        }
    }
}

// The number of the answer and what the record says of the whole area.
fn whole(rt: &HostRuntime, answer: u8, r: Record) {
    print::form(
        rt,
        b": # routers # root # direction # hold # step # clock # stray #",
        &[
            u64::from(answer),
            u64::from(r.n),
            u64::from(r.root),
            u64::from(r.direction),
            u64::from(r.hold_time),
            u64::from(r.step_time),
            u64::from(r.clock),
            fresh::stray(r),
        ],
    );
}

// What the tables of an accepted call hold: in how many cells that belong to no link a new metric stands, and a
// checksum of each table.
fn filled(rt: &HostRuntime, n: usize, tables: &ChangeTables) {
    print::form(rt, b"metrics #", &[tables.stray_metrics(n)]);
    print::form(rt, b" tables # # # # # # #\n", &tables.checksums());
}

// The distances, the full next-hop sets and the sets of four from router 0 to the last router, the old before the new.
fn way(rt: &HostRuntime, n: usize, tables: &ChangeTables) {
    let before = &tables.before;
    let after = &tables.after;
    if n < 1 || WIDTH < n {
        return;
    }
    let k = n - 1;
    let old = u64::from(before.dist[k]);
    let new = u64::from(after.dist[k]);
    print::form(rt, b"from 0 to # distances # #", &[k as u64, old, new]);
    print::form(rt, b" hops # #", &[before.hops[k], after.hops[k]]);
    print::form(rt, b" fours # #\n", &[before.fours[k], after.fours[k]]);
}
