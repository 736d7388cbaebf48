// Files of WIDTH routers that are made by a rule, with all their links. What is written for one is compared with the
// file that is expected, which is made by the same rule.
//     half    every other link is dead, the first, the third and so on; there is no change and no step
//     full    no link is dead, and there are as many changes and steps as may be: the largest file
ghost use Rattle.std.specs.Prelude.{◌*◌, ◌+◌, ◌-◌, ◌≤◌, ◌<◌};
ghost use Rattle.area.specs.Limits.{width, most_changes, most_steps};

use crate::output;
use area::limits::{ENTRY, MOST_CHANGES, MOST_STEPS, STEP, WIDTH};
use cases::print;

const OTHERS: usize = WIDTH - 1;

const LINKS: usize = WIDTH * OTHERS;

// A byte more than the largest file has, so that one that is too long shows.
const ROOM: usize = 33089;

// What a file has.
#[derive(Clone, Copy)]
struct Shape {
    links: usize,
    // The links are those at the odd places of all links.
    odd: bool,
    // Links at even places are dead.
    dead: bool,
    changes: usize,
    steps: usize,
    // Bytes of the times: 4, and none in a stored file.
    times: usize,
}

pub fn half(rt: &HostRuntime) {
    let stored = Shape {
        links: LINKS,
        odd: false,
        dead: true,
        changes: 0,
        steps: 0,
        times: 0,
    };
    let expected = Shape {
        links: LINKS / 2,
        odd: true,
        times: 4,
        ..stored
    };
    compare(rt, stored, expected);
}

pub fn full(rt: &HostRuntime) {
    let stored = Shape {
        links: LINKS,
        odd: false,
        dead: false,
        changes: MOST_CHANGES,
        steps: MOST_STEPS,
        times: 0,
    };
    let expected = Shape { times: 4, ..stored };
    compare(rt, stored, expected);
}

fn compare(rt: &HostRuntime, stored: Shape, expected: Shape)
    requires links_bound { (stored.links ≤ width * (width - 1)) × (stored.changes ≤ most_changes) }
    requires steps_le_most_steps { (stored.steps ≤ most_steps) × (stored.times ≤ 4) }
    requires links_bound_2 { (expected.links ≤ width * (width - 1)) × (expected.changes ≤ most_changes) }
    requires steps_le_most_steps_2 { (expected.steps ≤ most_steps) × (expected.times ≤ 4) }
{
    let mut file = [0u8; ROOM];
    let mut wanted = [0u8; ROOM];
    fill(&mut file, stored);
    fill(&mut wanted, expected);
    rewrite(rt, &file[..length(stored)], &wanted[..length(expected)]);
}

// Prints the length of the stored file and of what is written for it, and how many bytes of this are not those of the
// file that is expected. Then that is rewritten again.
fn rewrite(rt: &HostRuntime, stored: &[u8], expected: &[u8]) {
    let mut out = [0u8; ROOM];
    let written = rewriting::rewrite(stored, &mut out);
    let others = differing(&out[..written], expected);
    print::form(
        rt,
        b"from # length # differing #\n",
        &[stored.len() as u64, written as u64, others],
    );
    output::again(rt, &out[..written]);
}

fn length(s: Shape) -> usize
    requires links_bound { (s.links ≤ width * (width - 1)) × (s.changes ≤ most_changes) }
    requires steps_le_most_steps { (s.steps ≤ most_steps) × (s.times ≤ 4) }
    ensures { result ≤ 33088 }
{
    6 + ENTRY * s.links + ENTRY * s.changes + s.times + STEP * s.steps
}

fn fill(file: &mut [u8; ROOM], s: Shape)
    requires { (s.links ≤ width * (width - 1)) × (s.changes ≤ most_changes) }
{
    for (at, b) in file.iter_mut().enumerate() {
        *b = (part(at, s) % 256) as u8;
    }
}

// The byte at a place of the file, or a number of which it is the lowest byte.
fn part(at: usize, s: Shape) -> usize
    requires { (at < 33089) × (s.links ≤ width * (width - 1)) × (s.changes ≤ most_changes) }
{
    let links_end = 3 + ENTRY * s.links;
    if links_end <= at {
        return after_links(at - links_end, s);
    }
    if 2 < at {
        return link(place((at - 3) / ENTRY, s.odd), (at - 3) % ENTRY, s.dead);
    }
    match at {
        0 => WIDTH,
        1 => s.links / 256,
        _ => s.links,
    }
}

// The place of link e among all links.
fn place(e: usize, odd: bool) -> usize
    requires { e < width * width }
    ensures { result < 2 * (width * width) }
{
    if odd { 2 * e + 1 } else { e }
}

// The links of router 0, then those of router 1, and so on.
fn link(place: usize, byte: usize, dead: bool) -> usize
    requires { place < 2 * (width * width) }
{
    let i = place / OTHERS;
    let k = place % OTHERS;
    match byte {
        0 => i,
        1 => { if k < i { k } else { k + 1 } }
        _ => metric(place, byte, dead),
    }
}

// A byte of the metric: it is 1, and 16,777,215 where the link is dead.
fn metric(place: usize, byte: usize, dead: bool) -> usize {
    if dead && place % 2 == 0 {
        return 255;
    }
    if byte == 4 { 1 } else { 0 }
}

// The count of the changes, the changes, the times, and what follows them. A byte of a change is its place: the changes
// are judged by no reader.
fn after_links(k: usize, s: Shape) -> usize
    requires { (k < 33089) × (s.changes ≤ most_changes) }
{
    if k == 0 {
        return s.changes;
    }
    let times_at = 1 + ENTRY * s.changes;
    if k < times_at {
        return k;
    }
    let t = k - times_at;
    if t < s.times {
        return time(t);
    }
    of_steps(t - s.times, s.steps)
}

// Hold time 0, and step time 1.
fn time(t: usize) -> usize {
    if t == 3 { 1 } else { 0 }
}

// The count of the steps, and the steps, of which a byte is its place too.
fn of_steps(k: usize, steps: usize) -> usize {
    match k {
        0 => steps / 256,
        1 => steps,
        _ => k,
    }
}

// How many bytes are not those that are expected at their places. Nothing is expected behind the end.
fn differing(written: &[u8], expected: &[u8]) -> u64 {
    let places = written.iter().enumerate();
    places
        .filter(|(at, b)| expected.get(*at) != Some(*b))
        .count() as u64
}
