// Who waits for whom, who tells whom, ranks, and what is due, from the next hops before a change and after it.
//     order_of         who waits for whom and tells whom, and ranks, by the full next-hop sets, for every input
//     due_table        what is due, by the sets of four, for every input
//     are_readable     whether the tables can be read
//     toward           each router's next hops to the root, and `converse`: whose next hop each router is (waiting.rt)
//     due              what is due, from tables that can be read (due.rt)
// Ranks are found by crate ranks. What is promised is specs/Order.antt; proofs/EnteringLaws.antt says why `converse`
// finds the telling sets, proofs/Converse.antt why the table of waiting sets is all that they and ranks need.
#![tactic(auto)]

mod due;
mod waiting;

ghost use Rattle.std.specs.Prelude.{◌≡◌, ◌&&◌, leb};
ghost use Rattle.area.specs.Limits.{width};
ghost use Rattle.area.specs.Sizes.{is_table};
ghost use Rattle.order.specs.Order.{no_order, order_of, due_table};

use area::limits::{CELLS, Set, WIDTH};
use due::due;
use waiting::{converse, toward};

// Entry r of each table belongs to router r, and is 0 from n on.
#[derive(Clone, Copy)]
pub struct Order {
    pub waiting: [Set; WIDTH],
    pub telling: [Set; WIDTH],
    pub ranks: [u8; WIDTH],
}

// The order of a change: `old` and `new` are the full next-hop sets of the two topologies. All is 0 where n is above
// WIDTH, the root is not below WIDTH, or a table has not its size.
pub fn order_of(n: usize, root: usize, rising: bool, old: &[Set], new: &[Set]) -> Order
    ensures order { result ≡ order_of n root rising old.now new.now }
{
    if WIDTH <= root || !are_readable(n, old, new) {
        return no_order();
    }
    let waiting = if rising {
        converse(n, &toward(n, root, old))
    } else {
        toward(n, root, new)
    };
    let telling = converse(n, &waiting);
    let ranks = ranks::ranks(n, waiting);
    Order {
        waiting,
        telling,
        ranks,
    }
}

// Are there at most WIDTH routers, and has each table its size?
fn are_readable(n: usize, old: &[Set], new: &[Set]) -> bool
    ensures { result ≡ (leb n width && (is_table old.now && is_table new.now)) }
{
    n <= WIDTH && old.len() == CELLS && new.len() == CELLS
}

// No router waits or tells.
fn no_order() -> Order
    ensures { result ≡ no_order }
{
    Order {
        waiting: [0; WIDTH],
        telling: [0; WIDTH],
        ranks: [0; WIDTH],
    }
}

// The destinations that are due at each router: `old` and `new` are the sets of four of the two topologies. All is 0
// where n is above WIDTH, or a table has not its size.
pub fn due_table(n: usize, old: &[Set], new: &[Set]) -> [Set; WIDTH]
    ensures due { result ≡ due_table n old.now new.now }
{
    if !are_readable(n, old, new) {
        return [0; WIDTH];
    }
    due(n, old, new)
}
