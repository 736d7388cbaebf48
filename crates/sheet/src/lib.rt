// The running sheet of a change (02, No. 1): the routers in an order in which they can be upgraded, each after all that
// it waits for, and of those that could come next always the lowest number.
//     sheet         Plan, and the sheet of its record
//     in_turn       the sheet of a record, whatever it holds
//     by_turns      the loop: at each place the router that comes next
//     next_after    the lowest router that could come after those that are placed
//     could_come    whether a router could
// What they promise is specs/Sheet.antt; what makes it a sheet is proofs/SheetLaws.antt. The calls of following a sheet
// are specs/Follow.antt; that they finish every router is proofs/FollowLaws.antt, and how many they are
// proofs/LengthLaws.antt.
#![tactic(auto)]

ghost use Rattle.std.specs.Prelude.{◌≡◌, not, ◌&&◌, ◌≤◌, get_or, IfOk};
ghost use Rattle.area.specs.Limits.{width};
ghost use Rattle.area.specs.Refusals.{verdict_number};
ghost use Rattle.area.specs.Tables.{per_router};
ghost use Rattle.sets.specs.Sets.{bit, subset};
ghost use Rattle.paths.specs.Paths.{AreSame};
ghost use Rattle.plan.specs.Plan.{tables_held, refusal_of, record_by, tables_by};
ghost use Rattle.sheet.specs.Sheet.{next_after, place_at, sheet_of};

use area::limits::{Set, WIDTH};
use area::refusal::Refusal;
use paths::Topology;
use plan::{Change, Record, plan};
use sets::{add, is_subset, member};

// The running sheet of a change: the router at each of the n places, 0 from n on. It takes what Plan takes, and it
// refuses and fills the tables as Plan does.
pub fn sheet(
    change: Change<'_>,
    metrics: &mut [u32],
    old: &mut Topology<'_>,
    new: &mut Topology<'_>,
) -> Result<[u8; WIDTH], Refusal>
    ensures answer { let lent = tables_held metrics.old old.old new.old in
        verdict_number result ≡ refusal_of change.entry lent }
    ensures routers { let lent = tables_held metrics.old old.old new.old in
        IfOk result (λ x. x ≡ sheet_of (record_by change.entry lent)) }
    ensures tables { let lent = tables_held metrics.old old.old new.old in
        let left = tables_held metrics.new old.new new.new in
        left ≡ tables_by change.entry lent }
    ensures same { AreSame old.old old.new × AreSame new.old new.new }
{
    let first = plan(change, metrics, old, new)?;
    Ok(in_turn(first))
}

// The sheet of a record. Where no router could come, as where two wait for each other, a place holds n. All is 0 where
// n is above WIDTH.
#[tactic(auto, unfolding(crate::specs::Sheet::sheet_of))]
pub fn in_turn(first: Record) -> [u8; WIDTH]
    ensures sheet { result ≡ sheet_of first }
{
    let n = usize::from(first.n);
    if WIDTH < n {
        return [0; WIDTH];
    }
    by_turns(n, &first.waiting)
}

// The router at each of n places.
fn by_turns(n: usize, waiting: &[Set; WIDTH]) -> [u8; WIDTH]
    requires { n ≤ width }
    ensures { result ≡ per_router width n (place_at n (λ r. get_or waiting.now r 0)) }
{
    let mut routers = [0u8; WIDTH];
    let mut placed: Set = 0;
    // By places: who comes next is known from those before, and goes into the set and the array alike.
    for k in 0..n {
        let next = next_after(n, waiting, placed);
        routers[k] = next as u8;
        placed = add(placed, next);
    }
    routers
}

// The lowest router that could come after those that are placed; n where none could.
fn next_after(n: usize, waiting: &[Set; WIDTH], placed: Set) -> usize
    requires { n ≤ width }
    ensures { (result ≤ n) × (result ≡ next_after n (λ k. get_or waiting.now k 0) placed) }
{
    (0..n)
        .find(|&r| could_come(waiting[r], placed, r))
        .unwrap_or(n)
}

// Could router r, which waits for the set `waits`, come next? It is not placed, and all that it waits for are.
fn could_come(waits: Set, placed: Set, r: usize) -> bool
    ensures { result ≡ (not (bit placed r) && subset width waits placed) }
{
    !member(placed, r) && is_subset(waits, placed)
}
