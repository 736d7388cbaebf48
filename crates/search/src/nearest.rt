// The router that the search for one source settles next.
ghost use Rattle.std.specs.Prelude.{◌≤◌, ◌<◌, IfSome, length};
ghost use Rattle.search.specs.Nearest.{Nearest, found_or};

use area::limits::{Set, UNREACHED};

// The nearest reached router that is not settled.
pub(crate) fn nearest(n: usize, dist: &[u32], settled: Set) -> Option<usize>
    requires { n ≤ length dist.now }
    ensures inside { IfSome result (λ r. r < n) }
    ensures nearest { Nearest n dist.now settled (found_or n result) }
{
    let mut best = n;
    let mut low = UNREACHED;
    // By number: that of the nearest is the answer, and the row may be longer than n. `best` is a number too, since the
    // compiler then makes conditional moves of this loop; of an Option it makes branches, which are hard to predict.
    for k in 0..n {
        let d = dist[k];
        if d < low && !sets::member(settled, k) {
            low = d;
            best = k;
        }
    }
    if best < n { Some(best) } else { None }
}
