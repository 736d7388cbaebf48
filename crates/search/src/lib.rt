// The search for one source: Dijkstra's, with all next hops of equal cost.
//     search     the source's rows of distances and of next hops, or nothing written where a size is wrong
//     settle     the main loop: takes the nearest reached router that is not settled, until none is left
//     nearest    which router that is (nearest.rt)
//     relax      offers the neighbours of the router just taken the way by it
//     offer      a neighbour takes what is nearer, and joins what is as near (offers.rt)
// What it promises is specs/Rows.antt. Why it is right is proofs/Dijkstra.antt, on distances and next hops alone;
// proofs/Settling.antt says the same of the two rows.
#![tactic(auto)]

mod nearest;
mod offers;

ghost use Rattle.std.specs.Prelude.{◌≡◌, ℕ, ◌+◌, ◌*◌, ◌<◌, ◌≤◌, length, get_or};
ghost use Rattle.area.specs.Limits.{width, unused, unreached};
ghost use Rattle.area.specs.Tables.{build};
ghost use Rattle.topology.specs.Cells.{distance_cell, hop_cell};
ghost use Rattle.search.specs.Rows.{are_sizes, distance_row, hop_row};
ghost use Rattle.search.specs.Search.{RowsRelaxed};

use area::limits::{CELLS, Set, UNREACHED, UNUSED, WIDTH};
use nearest::nearest;
use offers::{first_hop, offer};
use topology::usable;

// The source's rows of distances and of next hops; where a size is wrong, nothing is written.
#[tactic(auto, using(crate::proofs::RowsLaws::rows))]
pub fn search(n: usize, metric: &[u32], source: usize, dist: &mut [u32], hops: &mut [Set])
    ensures distances { dist.new
        ≡ distance_row n metric.now source dist.old hops.old }
    ensures hops { hops.new
        ≡ hop_row n metric.now source dist.old hops.old }
{
    if are_sizes(n, metric.len(), dist.len(), hops.len()) {
        rows(n, metric, source, dist, hops);
    }
}

// Are these the sizes that a search needs?
#[tactic(auto, unfolding(crate::specs::Rows::are_sizes))]
fn are_sizes(n: usize, cells: usize, distances: usize, sets: usize) -> bool
    ensures { result ≡ are_sizes n cells distances sets }
{
    n <= WIDTH && cells == CELLS && distances == WIDTH && sets == WIDTH
}

// The source's rows. At first no router is reached, and none has a next hop; those of a router from n on stay so.
fn rows(n: usize, metric: &[u32], source: usize, dist: &mut [u32], hops: &mut [Set])
    requires n_le_width { (n ≤ width) × (length metric.now ≡ width * width) }
    requires dist_len { (length dist.old ≡ width) × (length hops.old ≡ width) }
    ensures dist_after { dist.new ≡ build width (distance_cell n metric.now source) }
    ensures hops_after { hops.new ≡ build width (hop_cell n metric.now source) }
{
    dist.fill(UNREACHED);
    hops.fill(0);
    if source < n {
        settle(n, metric, source, dist, hops);
    }
}

// Settles the routers that can be reached, the nearest first: a router's distance is final when it is taken, not when
// it is first reached.
fn settle(n: usize, metric: &[u32], source: usize, dist: &mut [u32], hops: &mut [Set])
    requires n_le_width { (n ≤ width) × (length metric.now ≡ width * width) }
    requires source_lt_n { (source < n) × (length dist.old ≡ width) × (length hops.old ≡ width) }
    requires by_index { (j : ℕ) → j < width → get_or dist.old j 0 ≡ unreached }
    requires by_index_2 { (j : ℕ) → j < width → get_or hops.old j 0 ≡ 0 }
    ensures dist_after { dist.new ≡ build width (distance_cell n metric.now source) }
    ensures hops_after { hops.new ≡ build width (hop_cell n metric.now source) }
{
    let mut settled: Set = 0;
    dist[source] = 0;
    while let Some(q) = nearest(n, dist, settled) {
        settled = sets::add(settled, q);
        relax(n, metric, source, q, dist, hops);
    }
}

// Every router that has a link from the settled router q is offered the way by q.
fn relax(n: usize, metric: &[u32], source: usize, q: usize, dist: &mut [u32], hops: &mut [Set])
    requires n_le_width { (n ≤ width) × (length metric.now ≡ width * width) }
    requires dist_len { (length dist.old ≡ width) × (length hops.old ≡ width) }
    requires q_lt_n { (q < n) × (get_or dist.old q 0 + unused ≤ unreached) }
    ensures { RowsRelaxed n metric.now source q
        dist.old hops.old dist.new hops.new }
{
    let base = dist[q];
    let own = hops[q];
    // By number: `usable` asks for a pair of routers.
    for j in 0..n {
        let m = usable(n, metric, q, j);
        if m < UNUSED {
            let by = first_hop(source, q, own, j);
            offer(base + m, by, j, dist, hops);
        }
    }
}
