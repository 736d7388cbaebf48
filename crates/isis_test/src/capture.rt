// The data of a real implementation: lists.hex, table.hex, and in expect the links that they give. The program prints
// the links of the metric table in the form of that file, and whether they are the file's. A link of the file at
// 16,777,215 is none in the metric table, so the file is made a metric table and these two are compared.
ghost use Rattle.std.specs.Prelude.{◌≡◌, ◌*◌, ◌≤◌, ◌<◌, length, take, IfSome};
ghost use Rattle.area.specs.Limits.{width};

use crate::call::OLD;
use crate::show;
use area::limits::{CELLS, WIDTH};
use area::refusal::number_of;
use cases::{LONG_TABLE, input, print, read};
use text::Writer;

// The folder has the name of the case.
pub fn run(rt: &HostRuntime, name: &[u8]) {
    let mut identities = [0u8; 2048];
    let mut lists = [0u8; 2048];
    let rows = bytes(rt, name, b"/table.hex", &mut identities);
    let size = bytes(rt, name, b"/lists.hex", &mut lists);
    area(rt, name, &identities[..rows], &lists[..size]);
}

fn area(rt: &HostRuntime, name: &[u8], identities: &[u8], lists: &[u8]) {
    let mut table = [OLD; LONG_TABLE];
    let n = isis::count(lists);
    let answer = isis::read(n, identities, lists, &mut table[0..CELLS]);
    print::form(
        rt,
        b": #\nn #\n",
        &[u64::from(number_of(&answer)), n as u64],
    );
    show::links(rt, &table, b"link # # #\n");
    compare(rt, name, n as u64, &table);
}

// Compares n and the metric table with those that are expected.
fn compare(rt: &HostRuntime, name: &[u8], n: u64, table: &[u32; LONG_TABLE]) {
    let mut text = [0u8; 8192];
    let mut expected = [16777215; LONG_TABLE];
    let size = contents(rt, name, b"/expect", &mut text);
    let routers = read::number(&text[..size], 0);
    fill(&mut expected, &text[..size]);
    match first(table, &expected) {
        Some(k) => unequal(rt, routers, k, expected[k]),
        None if n == routers => print::text(rt, b"equal\n"),
        None => print::form(rt, b"not equal: expected are # routers\n", &[routers]),
    }
}

// What the file has instead: its number of routers, and the metric of the first cell that differs.
fn unequal(rt: &HostRuntime, routers: u64, k: usize, metric: u32) {
    let i = k / WIDTH;
    let j = k % WIDTH;
    print::form(
        rt,
        b"not equal: expected are # routers, and # # at #\n",
        &[routers, i as u64, j as u64, u64::from(metric)],
    );
}

// The metrics of the lines that say a link: link 0 1 7.
fn fill(expected: &mut [u32; LONG_TABLE], text: &[u8]) {
    for line in text.split(|b| *b == b'\n') {
        link(expected, line);
    }
}

fn link(expected: &mut [u32; LONG_TABLE], line: &[u8]) {
    if line.starts_with(b"l") {
        put(
            expected,
            read::number(line, 0),
            read::number(line, 1),
            read::number(line, 2),
        );
    }
}

fn put(expected: &mut [u32; LONG_TABLE], i: u64, j: u64, metric: u64) {
    if i < WIDTH as u64 && j < WIDTH as u64 {
        expected[WIDTH * i as usize + j as usize] = (metric % 4294967296) as u32;
    }
}

// The first cell in which the tables differ.
fn first(a: &[u32; LONG_TABLE], b: &[u32; LONG_TABLE]) -> Option<usize>
    ensures { IfSome result (λ k. k < width * width) }
{
    a.iter().zip(b).take(CELLS).position(|(x, y)| x != y)
}

// The bytes of a file of hexadecimal.
fn bytes(rt: &HostRuntime, folder: &[u8], file: &[u8], out: &mut [u8]) -> usize
    ensures { (result ≤ length out.new) × (result ≡ length (take result out.new)) }
{
    let mut text = [0u8; 8192];
    let size = contents(rt, folder, file, &mut text);
    match hexadecimal::unhex(&text[..size], out) {
        Ok(length) | Err(length) => length,
    }
}

// The contents of a file, and how many bytes that are; 0 where it cannot be opened.
fn contents(rt: &HostRuntime, folder: &[u8], file: &[u8], out: &mut [u8]) -> usize
    ensures { (result ≤ length out.new) × (result ≡ length (take result out.new)) }
{
    let mut path = [0u8; 64];
    let length = put_path(&mut path, folder, file);
    input::file(rt, &path[..length], out).unwrap_or(0)
}

// Puts the path of a file at the start of `out`, and gives its length.
fn put_path(out: &mut [u8; 64], folder: &[u8], file: &[u8]) -> usize
    ensures { result ≤ 64 }
{
    let mut path = Writer::new(out);
    path.append(folder);
    path.append(file);
    path.at.min(64)
}
