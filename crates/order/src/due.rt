// What is due: the destinations to which the set of four changes. `old` and `new` are the sets of four of the two
// topologies.
ghost use Rattle.std.specs.Prelude.{◌≡◌, ◌≤◌, ◌<◌, ◌*◌, length};
ghost use Rattle.area.specs.Limits.{width};
ghost use Rattle.area.specs.Tables.{cell, per_router};
ghost use Rattle.order.specs.Order.{due_by};

use area::limits::{Set, WIDTH};
use sets::add;
use std::array;

// The destinations that are due at each router.
pub(crate) fn due(n: usize, old: &[Set], new: &[Set]) -> [Set; WIDTH]
    requires { (n ≤ width) × (length old.now ≡ width * width) × (length new.now ≡ width * width) }
    ensures { result ≡ per_router width n (due_by n (cell width old.now) (cell width new.now)) }
{
    array::from_fn(|r| if r < n { changed(n, old, new, r) } else { 0 })
}

// The destinations to which the set of router r changes.
fn changed(n: usize, old: &[Set], new: &[Set], r: usize) -> Set
    requires n_le_width { (n ≤ width) × (r < width) }
    requires len { (length old.now ≡ width * width) × (length new.now ≡ width * width) }
    ensures { result ≡ due_by n (cell width old.now) (cell width new.now) r }
{
    let row = WIDTH * r;
    let is = &new[row..row + n];
    let mut found: Set = 0;
    for (d, was) in old[row..row + n].iter().enumerate() {
        if *was != is[d] {
            found = add(found, d);
        }
    }
    found
}
