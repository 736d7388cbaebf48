// The call of a case. The first number of its words is n, and the mark of it says what is called.
ghost use Rattle.std.specs.Prelude.{◌<◌};

use crate::{bytes, capture, cut, items, show};
use area::refusal::number_of;
use cases::{LONG_TABLE, lines, print, read};

// What a metric table holds before a call: a number that no call writes.
pub const OLD: u32 = 777777777;

// The words are a head, the table of identities and the lists, with a colon after each but the last.
pub fn run(rt: &HostRuntime, name: &[u8], words: &[u8]) {
    let head = lines::name(words);
    if read::mark(head, 0) == b'f' {
        capture::run(rt, name);
    } else {
        written(rt, head, lines::words(words));
    }
}

// A call with the bytes that the words say.
fn written(rt: &HostRuntime, head: &[u8], words: &[u8]) {
    let mut identities = [0u8; 2048];
    let mut lists = [0u8; 2048];
    let rows = bytes::fill(&mut identities, lines::name(words));
    let size = bytes::fill(&mut lists, lines::words(words));
    by_mark(rt, head, &identities, rows, &lists, size);
}

fn by_mark(
    rt: &HostRuntime,
    head: &[u8],
    identities: &[u8; 2048],
    rows: usize,
    lists: &[u8; 2048],
    size: usize,
)
    requires { (rows < 2048) × (size < 2048) }
{
    let table = &identities[..];
    let bytes = &lists[..];
    let longer = size + 1;
    let n = read::number(head, 0) as usize;
    match read::mark(head, 0) {
        b'c' => cut::lists(rt, n, &table[0..rows], &bytes[0..longer]),
        b't' => cut::table(rt, n, &table[0..rows], &bytes[0..size]),
        b'e' => items::from(rt, &bytes[0..size], n),
        b'i' => items::at(rt, &bytes[0..size], n),
        b'l' => print::form(rt, b": #\n", &[isis::count(&bytes[0..size]) as u64]),
        _ => area(rt, head, n, &table[0..rows], &bytes[0..size]),
    }
}

// The answer, and what the metric table holds. It is lent with as many cells as the head says.
fn area(rt: &HostRuntime, head: &[u8], n: usize, identities: &[u8], lists: &[u8]) {
    let mut table = [OLD; LONG_TABLE];
    let cells = read::size(head, 0, LONG_TABLE);
    let answer = isis::read(n, identities, lists, &mut table[0..cells]);
    print::form(rt, b": #", &[u64::from(number_of(&answer))]);
    show::table(rt, &table);
}
