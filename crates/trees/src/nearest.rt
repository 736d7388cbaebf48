// The routers that the search settles next.
ghost use Rattle.trees.specs.Turns.{Nearest};

use area::limits::{Set, UNREACHED, WIDTH};
use sets::{add, members};

// The nearest members of a set of routers: those that are at the same, least distance. Two tests without an `else` are
// compiled to conditional moves; branches on the distances of an area are hard to predict.
#[tactic(auto, using(crate::proofs::Visiting::turn_inside))]
pub(crate) fn nearest(set: Set, dist: &[u32; WIDTH]) -> Set
    ensures { Nearest dist.now set result }
{
    let mut least: Set = 0;
    let mut low = UNREACHED;
    for k in members(set) {
        let d = dist[k];
        if d < low {
            low = d;
            least = 0;
        }
        if d == low {
            least = add(least, k);
        }
    }
    least
}
