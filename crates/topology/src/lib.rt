// Distances and next hops are defined here; the way round is on top of specs/Lib.antt. The code is what all others ask:
// the usable metric of a pair of routers. A link is used only if both directions have a metric (02, No. 4).
#![tactic(auto)]

ghost use Rattle.std.specs.Prelude.{◌≡◌, ◌*◌, ◌≤◌, length};
ghost use Rattle.area.specs.Limits.{width};
ghost use Rattle.topology.specs.Topology.{is_used, topology};
ghost use Rattle.topology.specs.Usable.{usable};

use area::limits::{CELLS, UNUSED, WIDTH};

// The metric of the link from i to j, and UNUSED where there is no used one.
#[tactic(auto, using(crate::proofs::TopologyLaws::usables))]
pub fn usable(n: usize, metric: &[u32], i: usize, j: usize) -> u32
    ensures answer { result ≡ usable n metric.now i j }
{
    if WIDTH < n || metric.len() != CELLS {
        return UNUSED;
    }
    link(n, metric, i, j)
}

// The same, in a table.
#[tactic(auto, using(crate::proofs::TopologyLaws::links))]
fn link(n: usize, metric: &[u32], i: usize, j: usize) -> u32
    requires { (n ≤ width) × (length metric.now ≡ width * width) }
    ensures { result ≡ topology n metric.now i j }
{
    if n <= i || n <= j || i == j {
        return UNUSED;
    }
    let there = metric[WIDTH * i + j];
    let back = metric[WIDTH * j + i];
    if is_used(there) && is_used(back) {
        there
    } else {
        UNUSED
    }
}

// Can a link be used at this metric?
fn is_used(metric: u32) -> bool
    ensures { result ≡ is_used metric }
{
    1 <= metric && metric < UNUSED
}
