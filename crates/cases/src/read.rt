// Places in a text, and the numbers of a line, counted from 0.
ghost use Rattle.std.specs.Prelude.{◌≤◌, length};

use area::limits::CELLS;

// No line has more numbers.
pub const MOST: usize = 200;

// What is looked for in a text.
#[derive(Clone, Copy)]
pub enum Sought {
    // The first byte of a line.
    Line,
    // The first digit of a number.
    Number,
    // The first digit of a number that has this mark.
    Marked(u8),
}

// The place of the k-th of them, counted from 0, and the length where there are fewer.
pub fn place(text: &[u8], sought: Sought, k: usize) -> usize
    ensures inside { result ≤ length text.now }
{
    let mut places = (0..text.len()).filter(|at| is_there(text, sought, *at));
    places.nth(k).unwrap_or(text.len())
}

// The place of the first byte that is b, and the length where there is none.
pub fn find(text: &[u8], b: u8) -> usize
    ensures inside { result ≤ length text.now }
{
    text.iter().position(|x| *x == b).unwrap_or(text.len())
}

// Is it at this place?
pub fn is_there(text: &[u8], sought: Sought, at: usize) -> bool {
    match sought {
        Sought::Line => at == 0 || before(text, at) == b'\n',
        Sought::Number => begins(text, at),
        Sought::Marked(mark) => begins(text, at) && before(text, at) == mark,
    }
}

// Does a number begin here?
fn begins(text: &[u8], at: usize) -> bool {
    byte(text, at).is_ascii_digit() && !before(text, at).is_ascii_digit()
}

// The byte at a place, and 0 where there is none.
fn byte(text: &[u8], at: usize) -> u8 {
    text.get(at).copied().unwrap_or(0)
}

// The byte before a place, and 0 where there is none.
fn before(text: &[u8], at: usize) -> u8 {
    if at < 1 {
        return 0;
    }
    byte(text, at - 1)
}

// Number k, and 0 where the line has fewer.
pub fn number(line: &[u8], k: usize) -> u64 {
    let at = place(line, Sought::Number, k);
    digits(&line[at..])
}

// The mark of number k, and 0 where it has none.
pub fn mark(line: &[u8], k: usize) -> u8 {
    let at = place(line, Sought::Number, k);
    if at < line.len() { before(line, at) } else { 0 }
}

// The first number with the mark.
pub fn value(line: &[u8], mark: u8, default: u64) -> u64 {
    let at = place(line, Sought::Marked(mark), 0);
    if at < line.len() {
        digits(&line[at..])
    } else {
        default
    }
}

// The time with the mark: h3 is the hold time, m5 the step time.
pub fn time(line: &[u8], mark: u8, default: u64) -> u16 {
    (value(line, mark, default) % 65536) as u16
}

// How many cells of table i are lent, of as many as there are: x4095/4097 says it for tables 0 and 1, and where nothing
// is said it is as many as a table has.
pub fn size(line: &[u8], i: usize, most: usize) -> usize
    ensures at_most { result ≤ most }
{
    let cells = said(line, i);
    if cells < most as u64 {
        cells as usize
    } else {
        most
    }
}

fn said(line: &[u8], i: usize) -> u64 {
    let at = place(line, Sought::Marked(b'x'), 0);
    if at < line.len() {
        number(&line[at..], i)
    } else {
        CELLS as u64
    }
}

// The number that a text begins with, and 0 where it begins with none.
fn digits(text: &[u8]) -> u64 {
    let mut x = 0;
    for b in text {
        if !b.is_ascii_digit() {
            return x;
        }
        x = longer(x, *b);
    }
    x
}

// A number with one digit more. No number of a line is above the highest that there is.
fn longer(x: u64, digit: u8) -> u64 {
    if 1844674407370955161 < x || digit < b'0' {
        return 0;
    }
    std::num::wrapping_add_u64(x * 10, (digit - b'0') as u64)
}
