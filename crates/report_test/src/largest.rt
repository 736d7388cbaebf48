// The largest file: WIDTH routers, a link from each to each other, and as many changes and steps as may be, each by a
// rule. Its hold time is 0; its step time is so large that no due time but those of rank 0 comes.
ghost use Rattle.std.specs.Prelude.{◌*◌, ◌-◌, ◌<◌};
ghost use Rattle.area.specs.Limits.{width, most_changes, most_steps};
ghost use Rattle.bench_file.specs.Sections.{largest};

use area::limits::{ENTRY, LARGEST, MOST_CHANGES, MOST_STEPS, STEP, WIDTH};

const OTHERS: usize = WIDTH - 1;

const LINKS: usize = WIDTH * OTHERS;

// Where the links begin, the changes, the times and the steps. Before links, changes and steps stands their count.
pub const LINKS_AT: usize = 3;

const CHANGES_AT: usize = LINKS_AT + ENTRY * LINKS + 1;

const TIMES_AT: usize = CHANGES_AT + ENTRY * MOST_CHANGES;

const STEPS_AT: usize = TIMES_AT + 4 + 2;

// The file, and after it a byte that is one too many.
pub fn fill(file: &mut [u8; LARGEST + 1]) {
    for (at, b) in file[..LARGEST].iter_mut().enumerate() {
        *b = byte(part(at));
    }
}

fn byte(x: usize) -> u8 {
    (x % 256) as u8
}

// The byte at a place.
fn part(at: usize) -> usize
    requires { at < largest }
{
    if STEPS_AT <= at {
        return step((at - STEPS_AT) / STEP, (at - STEPS_AT) % STEP);
    }
    if STEPS_AT - 2 <= at {
        return two(MOST_STEPS, at - (STEPS_AT - 2));
    }
    if TIMES_AT <= at {
        return time(at - TIMES_AT);
    }
    if CHANGES_AT <= at {
        return change((at - CHANGES_AT) / ENTRY, (at - CHANGES_AT) % ENTRY);
    }
    if CHANGES_AT - 1 <= at {
        return MOST_CHANGES;
    }
    if LINKS_AT <= at {
        return link((at - LINKS_AT) / ENTRY, (at - LINKS_AT) % ENTRY);
    }
    if at < 1 { WIDTH } else { two(LINKS, at - 1) }
}

// A byte of a count, the high one first.
fn two(count: usize, place: usize) -> usize {
    if place == 0 { count / 256 } else { count }
}

// A byte of the hold time, 0, or of the step time, 65,535.
fn time(place: usize) -> usize {
    if place < 2 { 0 } else { 255 }
}

// The links of router 0, then those of router 1, and so on.
fn link(e: usize, place: usize) -> usize
    requires { e < width * (width - 1) }
{
    let i = e / OTHERS;
    let j = other(i, e % OTHERS);
    entry(place, i, j, metric(i, j))
}

// The k-th router of those that are not i.
fn other(i: usize, k: usize) -> usize
    requires { k < width - 1 }
    ensures { result < width }
{
    if k < i { k } else { k + 1 }
}

// Every link of router 0 becomes worse, or goes down, in both directions.
fn change(e: usize, place: usize) -> usize
    requires { e < most_changes }
{
    let j = e / 2 + 1;
    if e % 2 == 0 {
        entry(place, 0, j, worse(0, j))
    } else {
        entry(place, j, 0, worse(j, 0))
    }
}

fn metric(i: usize, j: usize) -> usize
    requires { (i < width) × (j < width) }
    ensures { result < 30 }
{
    if i == 0 || j == 0 {
        return 1 + (3 * i + 5 * j) % 7;
    }
    1 + (7 * i + 13 * j) % 29
}

fn worse(i: usize, j: usize) -> usize
    requires { (i < width) × (j < width) }
{
    if (i + j) % 2 == 1 {
        return 16777215;
    }
    metric(i, j) + 9
}

// Two routers, and a metric in three bytes, the high one first.
fn entry(place: usize, from: usize, to: usize, m: usize) -> usize {
    match place {
        0 => from,
        1 => to,
        2 => m / 65536,
        3 => m / 256,
        _ => m,
    }
}

// First every router learns and is released. Here and there a step is of any kind and any routers.
fn step(k: usize, place: usize) -> usize
    requires { k < most_steps }
{
    if k % 100 == 99 {
        return call(place, k % 8, k % (WIDTH + 3), k % (WIDTH + 2));
    }
    if k < WIDTH {
        return call(place, 1, k, 0);
    }
    if k < 2 * WIDTH {
        return call(place, 2, k - WIDTH, 0);
    }
    let p = k - 2 * WIDTH;
    turn(7 * (p / (2 * WIDTH)) % WIDTH, p % (2 * WIDTH), place)
}

// The turn of router r: it writes to every router, finishes, and its message arrives at every other one.
fn turn(r: usize, p: usize, place: usize) -> usize
    requires { (r < width) × (p < 2 * width) }
{
    if p < WIDTH {
        return call(place, 3, r, p);
    }
    if p == WIDTH {
        return call(place, 4, r, 0);
    }
    call(place, 5, r, (r + p) % WIDTH)
}

// The kind of a step, and its two bytes.
fn call(place: usize, kind: usize, a: usize, b: usize) -> usize {
    match place {
        0 => kind,
        1 => a,
        _ => b,
    }
}
