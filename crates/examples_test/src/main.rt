// Prints the name of every example that standard input names, one in a line, and under it its rehearsal. What an
// example says of its own rehearsal is held to this by the gate.
//     example      the name, and what its file gives
//     open         the file of an example
//     rehearse     from its hexadecimal to the text that is printed
//     rehearsal    the rehearsal, in tables that hold nothing
#![tactic(auto)]

ghost use Rattle.std.specs.Prelude.{◌≡◌, ◌≤◌, length, take, IfSome};

use area::limits::{CELLS, LARGEST};
use cases::{input, print};
use paths::Topology;
use report::{REHEARSAL_ROOM, Text};
use text::Writer;

fn main(rt: HostRuntime) {
    let mut text = [0u8; 4096];
    let length = input::standard(&rt, &mut text);
    for name in text[..length].split(|b| *b == b'\n') {
        example(&rt, name);
    }
}

fn example(rt: &HostRuntime, name: &[u8]) {
    if name.is_empty() {
        return;
    }
    print::text(rt, name);
    print::byte(rt, b'\n');
    let mut text = [0u8; hexadecimal::MOST + 1];
    match open(rt, name, &mut text) {
        Some(size) => rehearse(rt, &text[..size]),
        None => print::text(rt, b"cannot be opened\n"),
    }
}

// Reads the file of an example.
fn open(rt: &HostRuntime, name: &[u8], out: &mut [u8]) -> Option<usize>
    ensures { IfSome result (λ n. (n ≤ length out.new) × (n ≡ length (take n out.new))) }
{
    let mut path = [0u8; 64];
    let mut text = Writer::new(&mut path);
    text.append(name);
    text.append(b".hex");
    let length = text.at;
    input::file(rt, &path[..length], out)
}

// Prints the rehearsal of a file that is in hexadecimal.
fn rehearse(rt: &HostRuntime, text: &[u8]) {
    let mut file = [0u8; LARGEST + 1];
    let mut out = [0u8; REHEARSAL_ROOM];
    let length = match hexadecimal::unhex(text, &mut file) {
        Ok(size) | Err(size) => rehearsal(&file[..size], &mut out),
    };
    print::text(rt, &out[..length]);
}

// Puts the rehearsal at the start of `out`, and gives its length.
fn rehearsal(file: &[u8], out: &mut [u8]) -> usize
    ensures { (result ≤ length out.new) × (result ≡ length (take result out.new)) }
{
    let mut before = [0u32; CELLS];
    let mut metrics = [0u32; CELLS];
    let mut old = Topology {
        dist: &mut [0; CELLS],
        hops: &mut [0; CELLS],
        fours: &mut [0; CELLS],
    };
    let mut new = Topology {
        dist: &mut [0; CELLS],
        hops: &mut [0; CELLS],
        fours: &mut [0; CELLS],
    };
    report::print(
        Text::Rehearsal,
        file,
        &mut before,
        &mut metrics,
        &mut old,
        &mut new,
        out,
    )
}
