// The text of a file. The tables hold other numbers before, and none of those may show.
ghost use Rattle.std.specs.Prelude.{◌≡◌, ◌≤◌, length, take};

use crate::summary;
use area::limits::Set;
use cases::{LONG_TABLE, print, read};
use paths::Topology;
use report::{ROUTES_ROOM, Text};

// Prints the text that the words say, or with the letter b whether the file is taken for a text.
pub fn print(rt: &HostRuntime, words: &[u8], file: &[u8]) {
    if !words.contains(&b'b') {
        of_file(rt, words, file);
    } else if hexadecimal::is_text(file) {
        print::text(rt, b"text\n");
    } else {
        print::text(rt, b"binary\n");
    }
}

// No text has more bytes than the routes.
fn of_file(rt: &HostRuntime, words: &[u8], file: &[u8]) {
    let mut out = [0u8; ROUTES_ROOM];
    lend(rt, words, file, &mut out);
}

// Prints the text of a file. One that may be cut is printed with a line end after it.
fn lend(rt: &HostRuntime, words: &[u8], file: &[u8], out: &mut [u8; ROUTES_ROOM]) {
    let length = text(words, file, out);
    summary::print(rt, &out[..length]);
    if words.contains(&b'o') {
        print::byte(rt, b'\n');
    }
}

// Puts the text at the start of `out`, and gives its length. Of `out` as many bytes are lent as the words say, and of
// each table as many cells.
fn text(words: &[u8], file: &[u8], out: &mut [u8]) -> usize
    ensures { (result ≤ length out.new) × (result ≡ length (take result out.new)) }
{
    let mut before = [1u32; LONG_TABLE];
    let mut metrics = [2u32; LONG_TABLE];
    let mut old_dist = [3u32; LONG_TABLE];
    let mut old_hops: [Set; LONG_TABLE] = [7; LONG_TABLE];
    let mut old_fours: [Set; LONG_TABLE] = [8; LONG_TABLE];
    let mut new_dist = [5u32; LONG_TABLE];
    let mut new_hops: [Set; LONG_TABLE] = [18446744073709551615; LONG_TABLE];
    let mut new_fours: [Set; LONG_TABLE] = [9; LONG_TABLE];
    let a = read::size(words, 0, LONG_TABLE);
    let b = read::size(words, 1, LONG_TABLE);
    let c = read::size(words, 2, LONG_TABLE);
    let d = read::size(words, 3, LONG_TABLE);
    let e = read::size(words, 4, LONG_TABLE);
    let f = read::size(words, 5, LONG_TABLE);
    let g = read::size(words, 6, LONG_TABLE);
    let h = read::size(words, 7, LONG_TABLE);
    let mut old = Topology {
        dist: &mut old_dist[..c],
        hops: &mut old_hops[..d],
        fours: &mut old_fours[..e],
    };
    let mut new = Topology {
        dist: &mut new_dist[..f],
        hops: &mut new_hops[..g],
        fours: &mut new_fours[..h],
    };
    let bytes = room(words, out.len());
    report::print(
        by_letter(words),
        file,
        &mut before[..a],
        &mut metrics[..b],
        &mut old,
        &mut new,
        &mut out[..bytes],
    )
}

// How many bytes a text has room for, of as many as there are.
fn room(words: &[u8], most: usize) -> usize
    ensures { result ≤ most }
{
    let bytes = read::value(words, b'o', most as u64);
    bytes.min(most as u64) as usize
}

// The routes (r), the running sheet (t), its steps (s), what is unfinished (u), or with no letter the rehearsal.
fn by_letter(words: &[u8]) -> Text {
    if words.contains(&b'r') {
        return Text::Routes;
    }
    if words.contains(&b't') {
        return Text::SheetTurns;
    }
    if words.contains(&b's') {
        return Text::SheetSteps;
    }
    if words.contains(&b'u') {
        return Text::Unfinished;
    }
    Text::Rehearsal
}
