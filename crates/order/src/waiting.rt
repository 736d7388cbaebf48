// Each router's next hops to the root, and for each router those whose set it is in. A table per router has WIDTH
// entries, 0 from n on.
ghost use Rattle.std.specs.Prelude.{◌≡◌, ◌≤◌, ◌<◌, ◌*◌, length, get_or};
ghost use Rattle.area.specs.Limits.{width};
ghost use Rattle.area.specs.Tables.{cell, per_router};
ghost use Rattle.order.specs.Order.{telling_by};
ghost use Rattle.order.specs.Entered.{Entered};

use area::limits::{Set, WIDTH};
use sets::{add, members};
use std::array;

// Each router's next hops to the root: in a fall it waits for those after the change, in a rise those before the change
// wait for it.
pub(crate) fn toward(n: usize, root: usize, hops: &[Set]) -> [Set; WIDTH]
    requires { (n ≤ width) × (root < width) × (length hops.now ≡ width * width) }
    ensures { result ≡ per_router width n (λ r. cell width hops.now r root) }
{
    array::from_fn(|r| if r < n { hops[WIDTH * r + root] } else { 0 })
}

// For each router, those whose set it is a member of.
pub(crate) fn converse(n: usize, sets: &[Set; WIDTH]) -> [Set; WIDTH]
    requires { n ≤ width }
    ensures { result ≡ per_router width n (telling_by n (λ s. get_or sets.now s 0)) }
{
    let mut out: [Set; WIDTH] = [0; WIDTH];
    for (s, set) in sets[..n].iter().enumerate() {
        enter(n, *set, s, &mut out);
    }
    out
}

// Router s is added to the entry of each member of its set; members from n on have none.
fn enter(n: usize, set: Set, s: usize, out: &mut [Set; WIDTH])
    requires { (n ≤ width) × (length out.old ≡ width) }
    ensures { Entered width n set s out.old out.new }
{
    for r in members(set) {
        if r < n {
            out[r] = add(out[r], s);
        }
    }
}
