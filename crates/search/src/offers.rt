// The offer of a way to a router, in the rows of a source.
ghost use Rattle.std.specs.Prelude.{◌≡◌, ◌<◌, length};
ghost use Rattle.search.specs.Offers.{first_hop, RowsOffered};

use area::limits::Set;

// The next hops from the source to j by way of q: j itself from the source, and from any other router those to q.
pub(crate) fn first_hop(source: usize, q: usize, own: Set, j: usize) -> Set
    ensures { result ≡ first_hop source q own j }
{
    if q == source { sets::add(0, j) } else { own }
}

// Router j can be had at the distance `sum` by the next hops `by`: they take the place of those of a larger distance,
// and join those of an equal one.
pub(crate) fn offer(sum: u32, by: Set, j: usize, dist: &mut [u32], hops: &mut [Set])
    requires { (j < length dist.old) × (j < length hops.old) }
    ensures { RowsOffered sum by j dist.old hops.old dist.new hops.new }
{
    let old = dist[j];
    if sum < old {
        dist[j] = sum;
        hops[j] = by;
    } else if sum == old {
        hops[j] = sets::join(hops[j], by);
    }
}
