// Router sets: a number of WIDTH bits, and its bit k stands for router k.
//     member, is_empty, is_subset      questions about sets
//     size                             how many members a set has
//     entry                            a router's set in a table of sets
//     add, remove, join, without       a new set from one or two
//     lowest, rest                     the lowest member, and the others
//     members                          the members one after another, for a loop over them (visiting.rt)
//     four                             the four lowest members
// What each promises is specs/Sets.antt, Counts.antt, Members.antt and Four.antt; why bit operations do it is the last
// part of proofs/SetLaws.antt, and of proofs/FourLaws.antt; the laws of a loop over the members are
// proofs/MembersLaws.antt.
#![tactic(auto)]

pub mod visiting;

ghost use Rattle.std.specs.Prelude.{◌≡◌, ◌≤◌, eqb, get_or};
ghost use Rattle.area.specs.Limits.{width};
ghost use Rattle.area.specs.Tests.{lowest};
ghost use Rattle.sets.specs.Sets.{bit, added, removed, union, without, subset};
ghost use Rattle.sets.specs.Counts.{size};
ghost use Rattle.sets.specs.Four.{four, beyond};

use area::limits::{Set, WIDTH};
use visiting::Members;

// Is router k a member of s?
pub fn member(s: Set, k: usize) -> bool
    ensures answer { result ≡ bit s k }
{
    if k < WIDTH { (s >> k) % 2 == 1 } else { false }
}

// s with router k. No set holds a router from WIDTH on, so s stays as it is for one.
pub fn add(s: Set, k: usize) -> Set
    ensures set { result ≡ added width s k }
{
    if k < WIDTH { s | (1 << k) } else { s }
}

// s without router k.
pub fn remove(s: Set, k: usize) -> Set
    ensures set { result ≡ removed width s k }
{
    if member(s, k) { s ^ (1 << k) } else { s }
}

// The members of s and those of t.
pub fn join(s: Set, t: Set) -> Set
    ensures set { result ≡ union width s t }
{
    s | t
}

// The members of s that are none of t.
pub fn without(s: Set, t: Set) -> Set
    ensures set { result ≡ without width s t }
{
    s ^ (s & t)
}

// Is every member of s a member of t?
pub fn is_subset(s: Set, t: Set) -> bool
    ensures answer { result ≡ subset width s t }
{
    s & t == s
}

// Has s no member?
pub fn is_empty(s: Set) -> bool
    ensures answer { result ≡ eqb s 0 }
{
    s == 0
}

// The set of router k in a table per router; the empty one where the table has no entry k.
pub fn entry(table: &[Set], k: usize) -> Set
    ensures entry { result ≡ get_or table.now k 0 }
{
    if k < table.len() { table[k] } else { 0 }
}

// How many members has s?
#[tactic(auto, using(crate::proofs::FourLaws::ones_size))]
pub fn size(s: Set) -> usize
    ensures upper_bound { result ≤ width }
    ensures count { result ≡ size width s }
{
    s.count_ones() as usize
}

// The four lowest members of s; all of them where it has fewer.
pub fn four(s: Set) -> Set
    ensures set { result ≡ four width s }
{
    let from_second = rest(s);
    let from_third = rest(from_second);
    let from_fourth = rest(from_third);
    without(s, rest(from_fourth))
}

// The lowest member of s; WIDTH where it has none, as `lowest` of area/specs/Tests.antt has it for every test.
pub fn lowest(s: Set) -> usize
    ensures member { result ≡ lowest width (bit s) }
{
    u64::trailing_zeros(s) as usize
}

// s without its lowest member.
pub fn rest(s: Set) -> Set
    ensures set { result ≡ beyond width 1 s }
{
    if s == 0 { 0 } else { s & (s - 1) }
}

// The members of s, the lowest first.
pub fn members(s: Set) -> Members
    ensures all_left { result.left ≡ s }
{
    Members { left: s }
}
