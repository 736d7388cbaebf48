// Distances and next hops of all pairs: one tree per destination, from the destination on (02, No. 11), with all next
// hops of equal cost.
//     trees        both tables, or nothing written where a size is wrong
//     fill         the tables: blank, and then column by column
//     Links        the links of an area, each router's neighbours once for all searches (links.rt)
//     Column       the search for one destination, and its column of either table (column.rt)
//     nearest      the routers that it settles next (nearest.rt)
// What it promises is specs/Trees.antt. Why it is right is proofs/Dijkstra.antt, on distances and next hops alone;
// proofs/Growing.antt says the same of the column.
#![tactic(auto)]

mod column;
mod links;
mod nearest;

ghost use Rattle.std.specs.Prelude.{◌≡◌, ◌*◌, length};
ghost use Rattle.area.specs.Limits.{width};
ghost use Rattle.area.specs.Tables.{tabulate};
ghost use Rattle.topology.specs.Cells.{distance_cell, hop_cell};
ghost use Rattle.trees.specs.Trees.{are_sizes, distance_table, hop_table};

use area::limits::{CELLS, Set, UNREACHED, WIDTH};
use column::Column;
use links::Links;

// The distance and the next-hop set of every pair; where a size is wrong, nothing is written.
#[tactic(auto, using(crate::proofs::TreesLaws::tables))]
pub fn trees(n: usize, metric: &[u32], dist: &mut [u32], hops: &mut [Set])
    ensures distances { dist.new
        ≡ distance_table n metric.now dist.old hops.old }
    ensures hops { hops.new
        ≡ hop_table n metric.now dist.old hops.old }
{
    if are_sizes(n, metric.len(), dist.len(), hops.len()) {
        fill(&Links::of(n, metric), dist, hops);
    }
}

// Are these the sizes that a search needs?
#[tactic(auto, unfolding(crate::specs::Trees::are_sizes))]
fn are_sizes(n: usize, cells: usize, distances: usize, sets: usize) -> bool
    ensures { result ≡ are_sizes n cells distances sets }
{
    n <= WIDTH && cells == CELLS && distances == CELLS && sets == CELLS
}

// The columns of the n destinations. The others are blank: no router is reached, and none has a next hop.
fn fill(links: &Links<'_>, dist: &mut [u32], hops: &mut [Set])
    requires { (length dist.old ≡ width * width) × (length hops.old ≡ width * width) }
    ensures distances { dist.new ≡ tabulate width (distance_cell links.now.n links.now.metric.now) }
    ensures hops { hops.new ≡ tabulate width (hop_cell links.now.n links.now.metric.now) }
{
    dist.fill(UNREACHED);
    hops.fill(0);
    // By number: a destination is a column, which lies in no slice of its own.
    for d in 0..links.n {
        let mut column = Column {
            dist: [UNREACHED; WIDTH],
            hops: [0; WIDTH],
        };
        column.search(links, d);
        column.put(d, dist, hops);
    }
}
