// The ranks of routers, from the sets of those that each waits for. A table per router has WIDTH entries, 0 from n on.
//     ranks        all ranks
//     by_rounds    the loop: after h rounds a router has the links of its longest chain of at most h
//     longer       one round
//     after        one router in a round
// What they promise is specs/Rank.antt; why the rounds end with the ranks is proofs/RankLaws.antt and
// proofs/Rounds.antt.
#![tactic(auto)]

ghost use Rattle.std.specs.Prelude.{◌≡◌, ℕ, ◌≤◌, ◌<◌, eqb, get_or};
ghost use Rattle.area.specs.Limits.{width};
ghost use Rattle.area.specs.Tests.{all};
ghost use Rattle.area.specs.Tables.{per_router};
ghost use Rattle.ranks.specs.Rank.{above, rank, ranks_of};

use area::limits::{Set, WIDTH};
use sets::members;
use std::array;

// For each of n routers the links of a longest chain of at most n - 1 links; members of a waiting set from n on are not
// read. This is its rank where no chain meets a router twice. All is 0 where n is above WIDTH.
pub fn ranks(n: usize, waiting: [Set; WIDTH]) -> [u8; WIDTH]
    ensures ranks { result ≡ ranks_of n waiting }
{
    if WIDTH < n {
        return [0; WIDTH];
    }
    by_rounds(n, &waiting)
}

// Each round allows chains of one link more, up to n - 1. After a round that changes nothing no round changes anything.
fn by_rounds(n: usize, waiting: &[Set; WIDTH]) -> [u8; WIDTH]
    requires { n ≤ width }
    ensures { result ≡ per_router width n (rank n (λ r. get_or waiting.now r 0)) }
{
    let mut ranks = [0u8; WIDTH];
    for _ in 1..n {
        let next = longer(n, waiting, &ranks);
        if next == ranks {
            return ranks;
        }
        ranks = next;
    }
    ranks
}

// One round: for each router one more than the largest rank of those below n that it waits for, 0 where there is none.
fn longer(n: usize, waiting: &[Set; WIDTH], ranks: &[u8; WIDTH]) -> [u8; WIDTH]
    requires { (n ≤ width) × ((s : ℕ) → s < n → get_or ranks.now s 0 < 255) }
    ensures { result ≡ per_router width n (λ r. above n (get_or waiting.now r 0) (λ s. get_or ranks.now s 0)) }
{
    array::from_fn(|r| if r < n {
        after(n, waiting[r], ranks)
    } else {
        0
    })
}

// One more than the largest rank of a set's members below n, 0 where it has none.
fn after(n: usize, set: Set, ranks: &[u8; WIDTH]) -> u8
    requires { (n ≤ width) × ((s : ℕ) → s < n → get_or ranks.now s 0 < 255) }
    ensures { result ≡ above n set (λ s. get_or ranks.now s 0) }
{
    let mut most = 0u8;
    for s in members(set) {
        if s < n {
            most = most.max(ranks[s] + 1);
        }
    }
    most
}
