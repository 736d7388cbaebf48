// Which way a change goes, by the usable metrics before it and after it. Only the pairs of the changes are looked at:
// no other goes a way of its own.
ghost use Rattle.std.specs.Prelude.{◌≡◌, ◌≤◌, ◌*◌, length, IfOk};
ghost use Rattle.area.specs.Limits.{width};
ghost use Rattle.area.specs.Refusals.{verdict_number};
ghost use Rattle.changes.specs.Sound.{Sound};
ghost use Rattle.plan.specs.Direction.{is_rise};
ghost use Rattle.plan.specs.Parts.{is_rising, direction_refusal, is_at_most, are_listed_at_most};

use crate::metrics::apply;
use area::limits::CELLS;
use area::refusal::Refusal;
use entries::Entries;
use topology::usable;

// Some usable metric becomes larger and none smaller, or the other way round. The numbers are those of a record.
#[derive(Clone, Copy, PartialEq, Eq)]
pub enum Direction {
    Rise = 1,
    Fall = 2,
}

// The direction of changes that have no fault. The new metrics are worked out aside: the lent table may be written only
// once all is accepted.
pub(crate) fn direction_of(n: usize, old: &[u32], list: &[u8]) -> Result<Direction, Refusal>
    requires { (n ≤ width) × (length old.now ≡ width * width) × Sound n list.now }
    ensures answer { verdict_number result ≡ direction_refusal n old.now list.now }
    ensures direction { IfOk result (λ d. is_rising d ≡ is_rise n old.now list.now) }
{
    let mut new = [0u32; CELLS];
    apply(n, old, list, &mut new);
    let rising = are_at_most(n, old, &new, list);
    let falling = are_at_most(n, &new, old, list);
    match (rising, falling) {
        (true, true) => Err(Refusal::SameMetric),
        (true, false) => Ok(Direction::Rise),
        (false, true) => Ok(Direction::Fall),
        (false, false) => Err(Refusal::Mixed),
    }
}

// Is no usable metric of a listed pair larger in `less` than in `more`?
fn are_at_most(n: usize, less: &[u32], more: &[u32], list: &[u8]) -> bool
    requires { (n ≤ width) × (length less.now ≡ width * width) × (length more.now ≡ width * width) }
    ensures { result ≡ are_listed_at_most n less.now more.now list.now }
{
    Entries::of(list).all(|change| is_at_most(n, less, more, change.from, change.to))
}

// The same of the pair (i, j).
fn is_at_most(n: usize, less: &[u32], more: &[u32], i: usize, j: usize) -> bool
    requires { (n ≤ width) × (length less.now ≡ width * width) × (length more.now ≡ width * width) }
    ensures { result ≡ is_at_most n less.now more.now i j }
{
    usable(n, less, i, j) <= usable(n, more, i, j)
}
