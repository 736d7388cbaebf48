// Faulty changes.
//     first_refusal    the refusal of the first faulty change
//     refusal          that of one change, beside the pairs of those before it
//     is_new           whether its pair comes for the first time, by the sets of pairs
//     is_new_beyond    the same by the list
// That the sets tell a repeated pair is entries/proofs/SeenLaws.antt.
ghost use Rattle.std.specs.Prelude.{◌≡◌};
ghost use Rattle.area.specs.Refusals.{verdict_number};
ghost use Rattle.area.specs.Tests.{first};
ghost use Rattle.entries.specs.Entries.{entry_count, entry_of, is_first, listed_refusal};
ghost use Rattle.entries.specs.Seen.{Seen};

use area::limits::{Set, WIDTH};
use area::refusal::Refusal;
use entries::{Entry, check, count, decode};
use sets::{add, member};

// The refusal of the first faulty change.
pub fn first_refusal(n: usize, list: &[u8]) -> Result<(), Refusal>
    ensures answer { verdict_number result ≡ first (entry_count list.now) (listed_refusal n list.now) }
{
    // Set i holds every j of a change from i to j.
    let mut seen: [Set; WIDTH] = [0; WIDTH];
    // By places: where no set holds a pair, the list is gone over up to the place of the change.
    for e in 0..count(list) {
        let change = decode(list, e);
        refusal(n, list, e, change, &seen)?;
        if change.from < WIDTH {
            seen[change.from] = add(seen[change.from], change.to);
        }
    }
    Ok(())
}

// The refusal of change e. `seen` has the pairs before it.
#[tactic(auto, using(crate::proofs::ChangeLaws::refused))]
fn refusal(
    n: usize,
    list: &[u8],
    e: usize,
    change: Entry,
    seen: &[Set; WIDTH],
) -> Result<(), Refusal>
    requires { (change ≡ entry_of list.now e) × Seen list.now e seen.now }
    ensures { verdict_number result ≡ listed_refusal n list.now e }
{
    check(n, change)?;
    if is_new(list, e, change, seen) {
        Ok(())
    } else {
        Err(Refusal::Repeated)
    }
}

// Has no change before e the same pair?
fn is_new(list: &[u8], e: usize, change: Entry, seen: &[Set; WIDTH]) -> bool
    requires { (change ≡ entry_of list.now e) × Seen list.now e seen.now }
    ensures { result ≡ is_first list.now e }
{
    if change.from < WIDTH && change.to < WIDTH {
        !member(seen[change.from], change.to)
    } else {
        is_new_beyond(list, e, change)
    }
}

// The same of any pair: no set holds a router from WIDTH on, so the list is gone over.
fn is_new_beyond(list: &[u8], e: usize, change: Entry) -> bool
    requires { change ≡ entry_of list.now e }
    ensures { result ≡ is_first list.now e }
{
    (0..e).all(|d| {
        let earlier = decode(list, d);
        !(earlier.from == change.from && earlier.to == change.to)
    })
}
