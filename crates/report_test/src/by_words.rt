// The file of an area and a change that words say: n64 S0=1 H0=16777215. Its hold time is 0 and its step time 1, and it
// has no step.
ghost use Rattle.std.specs.Prelude.{◌*◌, ◌+◌, ◌≤◌, ◌<◌};
ghost use Rattle.area.specs.Limits.{width, most_changes};

use crate::largest::LINKS_AT;
use area::limits::{CELLS, ENTRY, LARGEST, UNUSED, WIDTH};
use cases::{LONG_LIST, LONG_TABLE, lists, metrics, read};

// Puts it at the start of `file`, which holds nothing but 0, and gives its length.
pub fn fill(file: &mut [u8; LARGEST + 1], said: &[u8]) -> usize {
    let mut table = [0; LONG_TABLE];
    let mut list = [0; LONG_LIST];
    metrics::fill(&mut table, said);
    let bytes = lists::fill(&mut list, said);
    let n = read::value(said, b'n', 0);
    let count = links(file, n as usize, &table);
    file[0] = (n % 256) as u8;
    file[1] = (count / 256) as u8;
    file[2] = (count % 256) as u8;
    changes(file, LINKS_AT + ENTRY * count, &list, bytes)
}

// The links of the table. Gives how many they are.
fn links(file: &mut [u8; LARGEST + 1], n: usize, table: &[u32; LONG_TABLE]) -> usize
    ensures { result ≤ width * width }
{
    let mut e = 0;
    for (k, metric) in table[..CELLS].iter().enumerate() {
        e = link(file, e, n, k, *metric);
    }
    e
}

// The link of cell k, if it is one, after e others. Gives how many there are then.
fn link(file: &mut [u8; LARGEST + 1], e: usize, n: usize, k: usize, metric: u32) -> usize
    requires { (e ≤ k) × (k < width * width) }
    ensures { result ≤ k + 1 }
{
    let i = k / WIDTH;
    let j = k % WIDTH;
    if n <= i || n <= j || i == j || metric == UNUSED {
        return e;
    }
    lists::entry(
        file,
        LINKS_AT + ENTRY * e,
        i as u64,
        j as u64,
        u64::from(metric),
    );
    e + 1
}

// The changes with their count at this place, and after them the times and no step. Gives where the file ends.
fn changes(file: &mut [u8; LARGEST + 1], at: usize, list: &[u8; LONG_LIST], bytes: usize) -> usize
    requires { (at ≤ 3 + 5 * (width * width)) × (bytes ≤ 5 * (most_changes + 2)) }
{
    file[at] = (bytes / ENTRY) as u8;
    let times_at = at + 1 + bytes;
    file[at + 1..times_at].copy_from_slice(&list[..bytes]);
    file[times_at + 3] = 1;
    times_at + 4 + 2
}
