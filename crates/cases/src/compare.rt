// Counts and sums over whole tables. A table has CELLS cells, and one more after them. The cells are 64 bits wide, as
// sets are: a table of metrics or distances is widened first.
ghost use Rattle.std.specs.Prelude.{◌+◌, ◌*◌, ◌<◌, ◌≤◌};
ghost use Rattle.area.specs.Limits.{width};

use crate::LONG_TABLE;
use area::limits::{CELLS, WIDTH};

// The table with cells as wide as those of a table of sets.
pub fn wide(table: &[u32; LONG_TABLE]) -> [u64; LONG_TABLE] {
    table.map(u64::from)
}

// How many cells of the two tables differ, but for the cell beyond.
pub fn differing(a: &[u64; LONG_TABLE], b: &[u64; LONG_TABLE]) -> u64
    ensures at_most { result ≤ width * width + 1 }
{
    unlike(a, b, |k| k < CELLS)
}

// How many cells no longer hold the number that all of them held.
pub fn changed(table: &[u64; LONG_TABLE], old: u64) -> u64
    ensures at_most { result ≤ width * width + 1 }
{
    unlike(table, &[old; LONG_TABLE], |_| true)
}

// How many cells that belong to no two of the n routers hold another number than this one.
pub fn beyond_pairs(n: usize, table: &[u64; LONG_TABLE], nothing: u64) -> u64
    ensures at_most { result ≤ width * width + 1 }
{
    unlike(
        table,
        &[nothing; LONG_TABLE],
        |k| k < CELLS && !are_routers(n, k),
    )
}

// How many cells that belong to no link of the n routers hold another number than this one.
pub fn beyond_links(n: usize, table: &[u64; LONG_TABLE], nothing: u64) -> u64
    ensures at_most { result ≤ width * width + 1 }
{
    unlike(
        table,
        &[nothing; LONG_TABLE],
        |k| k < CELLS && (!are_routers(n, k) || k / WIDTH == k % WIDTH),
    )
}

// How many of the cells that are compared differ.
fn unlike<F: Fn(usize) -> bool>(a: &[u64; LONG_TABLE], b: &[u64; LONG_TABLE], is_compared: F) -> u64
    requires { F.IsAlwaysCallable is_compared }
    ensures { result ≤ width * width + 1 }
{
    let differing = a
        .iter()
        .zip(b)
        .enumerate()
        .filter(|(k, (x, y))| x != y && is_compared(*k));
    differing.count() as u64
}

// Are both routers of cell k among the n?
fn are_routers(n: usize, k: usize) -> bool {
    k / WIDTH < n && k % WIDTH < n
}

// A sum of all cells but the one beyond that depends on their order.
pub fn checksum(table: &[u64; LONG_TABLE]) -> u64 {
    let mut sum = 0;
    for cell in &table[..CELLS] {
        sum = fold(sum, *cell);
    }
    sum
}

fn fold(sum: u64, cell: u64) -> u64
    requires { sum < 1000003 }
    ensures { result < 1000003 }
{
    (sum * 31 + cell % 1000003) % 1000003
}
