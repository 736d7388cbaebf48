// Paths: distances and next hops of one topology, by the metrics of its links.
//     Topology     the lent tables of one topology
//     are_paths    the test of the sizes of what is lent, for a caller that judges it first; `are_sized` of a Topology
//     paths        the refusals in their order (`judge`), and then the tables
//     is_area      the refusals that ask for no tables, for a caller that has lent none yet
//     fill         distances and next-hop sets, the rows of one source at a time, each by crate search
//     cut          the sets of four, which line cards hold, from the next-hop sets
//     are_valid    are the metrics such as Paths takes? (metrics.rt)
// What it promises is specs/Paths.antt; that a cell is then the least sum of a walk, and a set all next hops of equal
// cost, is at the end of proofs/PathsLaws.antt.
#![tactic(auto)]

mod metrics;

ghost use Rattle.std.specs.Prelude.{◌≡◌, ◌*◌, ◌≤◌, length, get_or};
ghost use Rattle.area.specs.Limits.{width};
ghost use Rattle.area.specs.Refusals.{verdict_number};
ghost use Rattle.area.specs.Tables.{build, tabulate};
ghost use Rattle.sets.specs.Four.{four};
ghost use Rattle.paths.specs.Paths.{paths_in, held, AreSame, are_paths, is_area, paths_refusal, paths_of};
ghost use Rattle.topology.specs.Cells.{distance_cell, hop_cell};

use area::limits::{CELLS, Set, WIDTH};
use area::refusal::Refusal;
use search::search;
use sets::four;

// The lent tables of one topology.
#[derive(Drop)]
pub struct Topology<'a> {
    pub dist: &'a mut [u32],
    pub hops: &'a mut [Set],
    pub fours: &'a mut [Set],
}

impl Topology<'_> {
    // Has each of the three the size of a table?
    pub fn are_sized(&self) -> bool
        ensures answer { result ≡ are_paths (held self.now) }
    {
        are_paths(self.dist, self.hops, self.fours)
    }
}

// Paths: the distance, the next-hop set and the set of four of every ordered pair of the n routers, or a refusal that
// writes no cell.
pub fn paths(n: usize, metric: &[u32], tables: &mut Topology<'_>) -> Result<(), Refusal>
    ensures answer { verdict_number result ≡ paths_refusal n metric.now (held tables.old) }
    ensures tables { held tables.new ≡ paths_of n metric.now (held tables.old) }
    ensures same { AreSame tables.old tables.new }
{
    judge(n, metric, tables)?;
    // Lent twice, so under a name of its own.
    let hops = &mut *tables.hops;
    fill(n, metric, tables.dist, hops);
    cut(hops, tables.fours);
    Ok(())
}

// The first refusal that applies.
#[tactic(auto, using(crate::proofs::PathsLaws::judged))]
fn judge(n: usize, metric: &[u32], tables: &Topology<'_>) -> Result<(), Refusal>
    ensures answer { verdict_number result ≡ paths_refusal n metric.now (held tables.now) }
{
    if !(1..=WIDTH).contains(&n) {
        return Err(Refusal::RouterCount);
    }
    if metric.len() != CELLS || !tables.are_sized() {
        return Err(Refusal::TableSize);
    }
    if !metrics::are_valid(n, metric) {
        return Err(Refusal::Metric);
    }
    Ok(())
}

// Are these n routers with a metric table of the right size and valid metrics? Where they are, Paths refuses no tables
// of the right size.
#[tactic(auto, using(crate::proofs::PathsLaws::judged))]
pub fn is_area(n: usize, metric: &[u32]) -> bool
    ensures answer { result ≡ is_area n metric.now }
{
    (1..=WIDTH).contains(&n) && metric.len() == CELLS && metrics::are_valid(n, metric)
}

// Have the tables of one topology the right size?
#[tactic(auto, using(area::proofs::SizeLaws::table_is), unfolding(crate::specs::Paths::are_paths))]
pub fn are_paths(dist: &[u32], hops: &[Set], fours: &[Set]) -> bool
    ensures answer { result ≡ are_paths (paths_in dist.now hops.now fours.now) }
{
    dist.len() == CELLS && hops.len() == CELLS && fours.len() == CELLS
}

// Distances and next-hop sets, row by row: the search for a source is lent that source's rows.
fn fill(n: usize, metric: &[u32], dist: &mut [u32], hops: &mut [Set])
    requires n_le_width { (n ≤ width) × (length metric.now ≡ width * width) }
    requires dist_len { (length dist.old ≡ width * width) × (length hops.old ≡ width * width) }
    ensures dist_after { dist.new ≡ tabulate width (distance_cell n metric.now) }
    ensures hops_after { hops.new ≡ tabulate width (hop_cell n metric.now) }
{
    // Rows by their numbers: of rows that an iterator has lent, a proof knows no cell afterwards.
    for i in 0..WIDTH {
        let a = WIDTH * i;
        let b = a + WIDTH;
        search(n, metric, i, &mut dist[a..b], &mut hops[a..b]);
    }
}

// The set of four of every next-hop set.
#[tactic(auto, using(area::proofs::TableLaws::is_build))]
fn cut(hops: &[Set], fours: &mut [Set])
    requires { (length hops.now ≡ width * width) × (length fours.old ≡ width * width) }
    ensures { fours.new ≡ build (width * width) (λ k. four width (get_or hops.now k 0)) }
{
    for (k, &set) in hops.iter().enumerate() {
        fours[k] = four(set);
    }
}
