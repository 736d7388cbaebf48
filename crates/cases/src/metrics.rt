// Metric tables of areas: cell WIDTH * i + j is the metric of the link from router i to router j.
// One cell more follows, so that a table can be lent that is too long.
ghost use Rattle.std.specs.Prelude.{◌*◌, ◌<◌};
ghost use Rattle.area.specs.Limits.{width};

use crate::LONG_TABLE;
use crate::read::{MOST, mark, number, value};
use area::limits::{CELLS, WIDTH};

// The table of a line, by its words from left to right:
//     0>1=7    a link from router 0 to router 1 at metric 7
//     0-1=7    links of both directions
//     C30=9    links at metric 9 between each router below 30 and the next
//     Q9       links at metric 9 between routers whose numbers differ in one bit: a hypercube
//     S5=9     links at metric 9 between router 5 and every router
//     D2       links of all pairs, at 20 metrics from 2 on that repeat often enough for many ties
//     J9       a different number in every cell: cell k is 9 + 4190209 * k
//     f1       1 in every cell that no other word fills
// With no f that is the number of a link that is not used. It is written out here, and not taken from the crate
// `area`, so that a wrong number there shows.
pub fn fill(table: &mut [u32; LONG_TABLE], line: &[u8]) {
    *table = [cell(value(line, b'f', 16777215)); LONG_TABLE];
    // By the numbers of the line: a word has one of them, two or three, so that no slice has its words.
    for k in 0..MOST {
        word(table, line, k);
    }
}

// The word whose first number is number k. The words of the change list begin with a letter of their own.
fn word(table: &mut [u32; LONG_TABLE], line: &[u8], k: usize)
    requires { k < 200 }
{
    let letter = mark(line, k);
    let x = number(line, k);
    let y = number(line, k + 1);
    match letter {
        b'C' | b'Q' | b'S' | b'D' | b'J' => every(table, letter, x, y),
        b' ' => link(table, x, y, mark(line, k + 1), number(line, k + 2)),
        _ => {}
    }
}

// A link in one direction or in both, by the sign between its routers.
fn link(table: &mut [u32; LONG_TABLE], from: u64, to: u64, sign: u8, m: u64) {
    if sign != b'>' && sign != b'-' {
        return;
    }
    put(table, from, to, m);
    if sign == b'-' {
        put(table, to, from, m);
    }
}

// One direction, where the table has a cell for it.
fn put(table: &mut [u32; LONG_TABLE], from: u64, to: u64, m: u64) {
    if WIDTH as u64 <= from {
        return;
    }
    if WIDTH as u64 <= to {
        return;
    }
    table[WIDTH * from as usize + to as usize] = cell(m);
}

// Every cell by the letter of a word and its numbers.
fn every(table: &mut [u32; LONG_TABLE], letter: u8, x: u64, y: u64) {
    for (k, cell) in table[..CELLS].iter_mut().enumerate() {
        *cell = by_letter(letter, x, y, k as u64, *cell);
    }
}

// What the letter makes of cell k, which holds `old`.
fn by_letter(letter: u8, x: u64, y: u64, k: u64, old: u32) -> u32
    requires { k < width * width }
{
    let from = k / WIDTH as u64;
    let to = k % WIDTH as u64;
    match letter {
        b'C' => if is_next(x, from, to) { cell(y) } else { old },
        b'Q' => if is_one_bit(from ^ to) { cell(x) } else { old },
        b'S' => if from == x || to == x { cell(y) } else { old },
        b'D' => cell(x % 1000 + (from * 7 + to * 13) % 20),
        _ => cell(x % 1000 + k * 4190209),
    }
}

// Is one of the two routers the next after the other, which is below the last?
fn is_next(last: u64, i: u64, j: u64) -> bool
    requires { (i < width) × (j < width) }
{
    if i < j {
        i + 1 == j && i < last
    } else {
        j + 1 == i && j < last
    }
}

fn is_one_bit(x: u64) -> bool {
    x.is_power_of_two()
}

fn cell(m: u64) -> u32 {
    (m % 4294967296) as u32
}
