// The tables that a call is lent, each of them one cell longer than the call asks for.
//     Tables          those of one topology
//     ChangeTables    those of a change: the new metrics, and the tables of both topologies
use crate::{LONG_TABLE, compare, read};
use area::limits::Set;
use paths::Topology;

// What a cell of each table holds before a call.
#[derive(Clone, Copy)]
pub struct Cell {
    pub distance: u32,
    pub full: Set,
    pub four: Set,
}

// The tables of one topology, and what their cells held before the call.
#[derive(Drop)]
pub struct Tables {
    pub dist: [u32; LONG_TABLE],
    pub hops: [Set; LONG_TABLE],
    pub fours: [Set; LONG_TABLE],
    held: Cell,
}

impl Tables {
    pub fn of(held: Cell) -> Tables {
        Tables {
            dist: [held.distance; LONG_TABLE],
            hops: [held.full; LONG_TABLE],
            fours: [held.four; LONG_TABLE],
            held,
        }
    }

    // The first cells of each, as many as the line says of the tables with these numbers.
    pub fn lend(&mut self, line: &[u8], numbers: [usize; 3]) -> Topology<'_> {
        let [distances, full, of_four] = numbers.map(|i| read::size(line, i, LONG_TABLE));
        let dist = &mut self.dist;
        let hops = &mut self.hops;
        let fours = &mut self.fours;
        Topology {
            dist: &mut dist[..distances],
            hops: &mut hops[..full],
            fours: &mut fours[..of_four],
        }
    }

    // How many cells of each changed.
    pub fn changed(&self) -> [u64; 3] {
        [
            compare::changed(&compare::wide(&self.dist), u64::from(self.held.distance)),
            compare::changed(&self.hops, self.held.full),
            compare::changed(&self.fours, self.held.four),
        ]
    }

    // In how many cells of each that belong to no pair of the n routers a distance or a next hop stands.
    pub fn stray(&self, n: usize) -> [u64; 3] {
        [
            compare::beyond_pairs(n, &compare::wide(&self.dist), 4294967295),
            compare::beyond_pairs(n, &self.hops, 0),
            compare::beyond_pairs(n, &self.fours, 0),
        ]
    }

    // In how many cells each differs from that of other tables.
    pub fn differing(&self, other: &Tables) -> [u64; 3] {
        [
            compare::differing(&compare::wide(&self.dist), &compare::wide(&other.dist)),
            compare::differing(&self.hops, &other.hops),
            compare::differing(&self.fours, &other.fours),
        ]
    }

    pub fn checksums(&self) -> [u64; 3] {
        [
            compare::checksum(&compare::wide(&self.dist)),
            compare::checksum(&self.hops),
            compare::checksum(&self.fours),
        ]
    }
}

// The new metrics hold this number before a call. No call writes it, nor one of those below.
const NEW: u32 = 777777771;

// The tables of a change.
#[derive(Drop)]
pub struct ChangeTables {
    pub metrics: [u32; LONG_TABLE],
    pub before: Tables,
    pub after: Tables,
}

impl ChangeTables {
    pub fn untouched() -> ChangeTables {
        ChangeTables {
            metrics: [NEW; LONG_TABLE],
            before: Tables::of(Cell {
                distance: 777777772,
                full: 8888888888888888884,
                four: 8888888888888888885,
            }),
            after: Tables::of(Cell {
                distance: 777777773,
                full: 8888888888888888886,
                four: 8888888888888888887,
            }),
        }
    }

    // How many cells of each changed: of the metrics, and of the tables before the change and after it.
    pub fn changed(&self) -> [u64; 7] {
        let metrics = compare::changed(&compare::wide(&self.metrics), u64::from(NEW));
        each(metrics, self.before.changed(), self.after.changed())
    }

    // A checksum of each, in the same order.
    pub fn checksums(&self) -> [u64; 7] {
        let metrics = compare::checksum(&compare::wide(&self.metrics));
        each(metrics, self.before.checksums(), self.after.checksums())
    }

    // In how many cells that belong to no link of the n routers a new metric stands.
    pub fn stray_metrics(&self, n: usize) -> u64 {
        compare::beyond_links(n, &compare::wide(&self.metrics), 16777215)
    }
}

fn each(metrics: u64, before: [u64; 3], after: [u64; 3]) -> [u64; 7] {
    let [a, b, c] = before;
    let [d, e, f] = after;
    [metrics, a, b, c, d, e, f]
}
