// The router that the changes have in common.
ghost use Rattle.std.specs.Prelude.{◌≡◌};
ghost use Rattle.changes.specs.Root.{is_common, root};

use entries::{Entries, decode};

// The lower end of the first change where that is an end of every change, and else the upper end.
#[tactic(auto, using(crate::proofs::RootLaws::root_ends))]
pub fn root(list: &[u8]) -> usize
    ensures answer { result ≡ root list.now }
{
    let first = decode(list, 0);
    let lower = first.from.min(first.to);
    if is_common(list, lower) {
        lower
    } else {
        first.from.max(first.to)
    }
}

// Is router c an end of every change?
pub fn is_common(list: &[u8], c: usize) -> bool
    ensures answer { result ≡ is_common list.now c }
{
    Entries::of(list).all(|change| change.from == c || change.to == c)
}
