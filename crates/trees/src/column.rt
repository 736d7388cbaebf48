// The search for one destination: from the destination on, the nearest routers first.
//     search   the main loop: settles the nearest of the reached routers, until none is left
//     settle   one turn: each of them offers its way to its neighbours
//     relax    the offers of one router
//     offer    a router takes what is nearer, and joins what is as near
//     put      writes the column into the tables
ghost use Rattle.std.specs.Prelude.{◌≡◌, true, ◌↔◌, ℕ, ◌+◌, ◌*◌, ◌^◌, ◌<◌, ◌≤◌, length, replicate};
ghost use Rattle.area.specs.Limits.{width, unreached};
ghost use Rattle.area.specs.Tables.{cell, build, with_column};
ghost use Rattle.sets.specs.Sets.{bit};
ghost use Rattle.topology.specs.Cells.{distance_cell, hop_cell};
ghost use Rattle.trees.specs.Turns.{entry, ColumnOffered, Relaxed, Offers, Turned};

use crate::links::Links;
use crate::nearest::nearest;
use area::limits::{Set, WIDTH};
use sets::{add, join, members, without};

// What a search has found for each router: its distance to the destination, and its next hops to it.
#[derive(Drop)]
pub(crate) struct Column {
    pub(crate) dist: [u32; WIDTH],
    pub(crate) hops: [Set; WIDTH],
    // What the types of both fields say, for the loops that change them.
    ghost sized: { (length dist ≡ width) × (length hops ≡ width) },
    ghost routers: { (i : ℕ) → entry hops i < 2 ^ width },
}

impl Column {
    // The distances to d and the next hops to it, from a blank column. All routers of the same, least distance are
    // settled at once: a metric is at least 1, so none of them is on the way of another. A router's distance is final
    // when it is settled, not when it is first reached.
    pub(crate) fn search(&mut self, links: &Links<'_>, d: usize)
        requires router { d < links.now.n }
        requires blank { (self.old.dist ≡ replicate width unreached) × (self.old.hops ≡ replicate width 0) }
        ensures distances { self.new.dist ≡ build width (λ i. distance_cell links.now.n links.now.metric.now i d) }
        ensures next_hops { self.new.hops ≡ build width (λ i. hop_cell links.now.n links.now.metric.now i d) }
    {
        self.dist[d] = 0;
        let mut settled: Set = 0;
        let mut reached = add(0, d);
        while reached != 0 {
            let next = nearest(reached, &self.dist);
            settled = join(settled, next);
            let offered = self.settle(links, next, settled);
            reached = join(without(reached, next), offered);
        }
    }

    // Each router of `next` offers its way to those that have a link to it and are not settled. They are handed back.
    #[tactic(auto, using(crate::proofs::Visiting::turn_inside))]
    fn settle(&mut self, links: &Links<'_>, next: Set, settled: Set) -> Set
        requires done { (q : ℕ) → bit next q ≡ true → bit settled q ≡ true }
        requires fits { (i q : ℕ) → Offers links.now.to next settled i q
            → entry self.old.dist q + cell width links.now.metric.now i q ≤ unreached }
        ensures turned { Turned links.now.metric.now links.now.to next settled
            self.old.dist self.old.hops self.new.dist self.new.hops }
        ensures offered { (i : ℕ) → i < width
            → (bit result i ≡ true) ↔ ((q : ℕ) × Offers links.now.to next settled i q) }
    {
        let mut offered: Set = 0;
        for q in members(next) {
            let ahead = without(links.to[q], settled);
            self.relax(links, q, ahead);
            offered = join(offered, ahead);
        }
        offered
    }

    // The settled router q offers its way to the routers of `ahead`, each over its link to q.
    #[tactic(auto, using(crate::proofs::Visiting::turn_inside))]
    fn relax(&mut self, links: &Links<'_>, q: usize, ahead: Set)
        requires router { q < width }
        requires fits { (i : ℕ) → bit ahead i ≡ true
            → entry self.old.dist q + cell width links.now.metric.now i q ≤ unreached }
        ensures { Relaxed links.now.metric.now q ahead self.old.dist self.old.hops self.new.dist self.new.hops }
    {
        let base = self.dist[q];
        let by = add(0, q);
        for i in members(ahead) {
            let sum = base + links.metric[WIDTH * i + q];
            self.offer(sum, by, i);
        }
    }

    // Router i can be had at the distance `sum` by the next hops `by`: they take the place of those of a larger
    // distance, and join those of an equal one.
    fn offer(&mut self, sum: u32, by: Set, i: usize)
        requires { i < width }
        ensures { ColumnOffered sum by i self.old.dist self.old.hops self.new.dist self.new.hops }
    {
        let old = self.dist[i];
        if sum < old {
            self.dist[i] = sum;
            self.hops[i] = by;
        } else if sum == old {
            self.hops[i] = join(self.hops[i], by);
        }
    }

    // Puts the distances and the next hops to d into its column of either table. One loop with a place is no longer
    // than two over the rows.
    pub(crate) fn put(&self, d: usize, dist: &mut [u32], hops: &mut [Set])
        requires column { d < width }
        requires tables { (length dist.old ≡ width * width) × (length hops.old ≡ width * width) }
        ensures distances { dist.new ≡ with_column width dist.old d (entry self.now.dist) }
        ensures next_hops { hops.new ≡ with_column width hops.old d (entry self.now.hops) }
    {
        for i in 0..WIDTH {
            let at = WIDTH * i + d;
            dist[at] = self.dist[i];
            hops[at] = self.hops[i];
        }
    }
}
