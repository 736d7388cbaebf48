// Change lists: an entry is two routers, and the metric in three bytes, the high one first.
ghost use Rattle.std.specs.Prelude.{◌+◌, ◌*◌, ◌<◌, ◌≤◌};
ghost use Rattle.area.specs.Limits.{most_changes};

use crate::LONG_LIST;
use crate::read::{MOST, mark, number, value};
use area::limits::{ENTRY, MOST_CHANGES, WIDTH};

// Puts the changes of a line at the start of the list, and gives how many bytes they have, by its words from left to
// right:
//     c0>1=7    the link from router 0 to router 1 gets the metric 7
//     c0-1=7    first this link, and then the other direction
//     H5=7      all links of router 5 in both directions, from the start of the list on
//     u125      only the first 125 changes are left
//     b9        only the first 9 bytes
pub fn fill(list: &mut [u8; LONG_LIST], line: &[u8]) -> usize
    ensures at_most { result ≤ 5 * (most_changes + 2) }
{
    let mut e = 0;
    // By the numbers of the line: a word has one of them, two or three, so that no slice has its words.
    for k in 0..MOST {
        e = word(list, e, line, k);
    }
    bytes(line, e)
}

// How many bytes of the list are used, after e changes.
fn bytes(line: &[u8], e: usize) -> usize
    ensures { result ≤ 5 * (most_changes + 2) }
{
    if MOST_CHANGES + 2 < e {
        return LONG_LIST;
    }
    let most = value(line, b'b', (ENTRY * e) as u64);
    if most < LONG_LIST as u64 {
        most as usize
    } else {
        LONG_LIST
    }
}

// The word whose first number is number k, after e changes. Gives how many there are then.
fn word(list: &mut [u8; LONG_LIST], e: usize, line: &[u8], k: usize) -> usize
    requires { k < 200 }
{
    let x = number(line, k);
    let y = number(line, k + 1);
    match mark(line, k) {
        b'c' => change(list, e, x, y, mark(line, k + 1), number(line, k + 2)),
        b'H' => hub(list, x, y),
        b'u' => x as usize,
        _ => e,
    }
}

// A change of one direction or of both, by the sign between the routers.
fn change(list: &mut [u8; LONG_LIST], e: usize, from: u64, to: u64, sign: u8, m: u64) -> usize {
    if MOST_CHANGES < e {
        return e;
    }
    entry(list, ENTRY * e, from, to, m);
    if sign != b'-' {
        return e + 1;
    }
    entry(list, ENTRY * (e + 1), to, from, m);
    e + 2
}

// Every link of the hub, both ways, gets the same metric.
fn hub(list: &mut [u8; LONG_LIST], hub: u64, m: u64) -> usize {
    let others = (0..WIDTH as u64).filter(|k| *k != hub).take(WIDTH - 1);
    for (links, k) in list.chunks_exact_mut(2 * ENTRY).zip(others) {
        entry(links, 0, k, hub, m);
        entry(links, ENTRY, hub, k, m);
    }
    MOST_CHANGES
}

// Puts an entry at a place of a list, as far as there is room for it.
pub fn entry(list: &mut [u8], at: usize, from: u64, to: u64, m: u64) {
    put(list, at, 0, from);
    put(list, at, 1, to);
    put(list, at, 2, m / 65536);
    put(list, at, 3, m / 256);
    put(list, at, 4, m);
}

// The lowest byte of a number, at so many places behind one of a list.
fn put(list: &mut [u8], at: usize, behind: usize, x: u64) {
    if list.len() <= at {
        return;
    }
    if behind < list.len() - at {
        list[at + behind] = (x % 256) as u8;
    }
}
