// Where packets go after the steps of a case: each router that has written a destination goes by its new set of four,
// and every other by its old one.
ghost use Rattle.std.specs.Prelude.{◌<◌};
ghost use Rattle.area.specs.Limits.{width};

use crate::planning;
use area::limits::{CELLS, Set, WIDTH};
use cases::{print, read};
use plan::Record;

// A line for the destination of the word g, if there is one: each router with its next hops, as 0>1.
pub(crate) fn show(rt: &HostRuntime, last: Record, words: &[u8]) {
    // With no such word it is 256, which is no router.
    let d = read::value(words, b'g', 256) as usize;
    if d < WIDTH {
        to(rt, last, words, d);
    }
}

fn to(rt: &HostRuntime, last: Record, words: &[u8], d: usize)
    requires { d < width }
{
    let mut old_fours = [0; CELLS];
    let mut new_fours = [0; CELLS];
    planning::planned(words, &mut old_fours, &mut new_fours);
    print::form(rt, b"packets to # go", &[d as u64]);
    let written = last.written;
    routers(rt, written, &old_fours, &new_fours, d);
    print::byte(rt, b'\n');
}

fn routers(
    rt: &HostRuntime,
    written: [Set; WIDTH],
    old_fours: &[Set; CELLS],
    new_fours: &[Set; CELLS],
    d: usize,
)
    requires { d < width }
{
    for (r, set) in written.iter().enumerate() {
        router(rt, r, *set, old_fours, new_fours, d);
    }
}

fn router(
    rt: &HostRuntime,
    r: usize,
    written: Set,
    old_fours: &[Set; CELLS],
    new_fours: &[Set; CELLS],
    d: usize,
)
    requires { (r < width) × (d < width) }
{
    let fours = if has(written, d) {
        new_fours
    } else {
        old_fours
    };
    hops(rt, r, fours[WIDTH * r + d]);
}

// The next hops of one router.
fn hops(rt: &HostRuntime, r: usize, four: Set) {
    // A router's number is a bit of the set, and a place in no slice.
    for k in 0..WIDTH {
        hop(rt, r, four, k);
    }
}

fn hop(rt: &HostRuntime, r: usize, four: Set, k: usize)
    requires { k < width }
{
    if has(four, k) {
        print::form(rt, b" #>#", &[r as u64, k as u64]);
    }
}

fn has(set: Set, k: usize) -> bool
    requires { k < width }
{
    (set >> k) % 2 == 1
}
