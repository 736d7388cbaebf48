// The links of an area. They are sets too: a search visits the neighbours of a router and no others.
ghost use Rattle.std.specs.Prelude.{◌≡◌, ◌*◌, ◌≤◌, length};
ghost use Rattle.area.specs.Limits.{width};
ghost use Rattle.area.specs.Tables.{per_router};
ghost use Rattle.trees.specs.Turns.{links_to};

use area::limits::{Set, UNUSED, WIDTH};
use sets::add;
use std::array;
use topology::usable;

// An area of n routers with its metric table, and for each router the set of those that have a used link to it.
#[derive(Drop)]
pub(crate) struct Links<'a> {
    pub(crate) n: usize,
    pub(crate) metric: &'a [u32],
    pub(crate) to: [Set; WIDTH],
    ghost few: { n ≤ width },
    ghost table: { length metric.now ≡ width * width },
    ghost used: { to ≡ per_router width n (links_to n metric.now) },
}

impl<'a> Links<'a> {
    pub(crate) fn of(n: usize, metric: &'a [u32]) -> Links<'a>
        requires { (n ≤ width) × (length metric.now ≡ width * width) }
        ensures routers { result.n ≡ n }
        ensures metrics { result.metric.now ≡ metric.now }
    {
        let to = array::from_fn(|q| if q < n { links_to(n, metric, q) } else { 0 });
        Links { n, metric, to }
    }
}

// The routers that have a used link to q.
fn links_to(n: usize, metric: &[u32], q: usize) -> Set
    requires { (n ≤ width) × (length metric.now ≡ width * width) }
    ensures { result ≡ links_to n metric.now q }
{
    let mut found: Set = 0;
    // By number: `usable` asks for a pair of routers.
    for i in 0..n {
        if usable(n, metric, i, q) < UNUSED {
            found = add(found, i);
        }
    }
    found
}
