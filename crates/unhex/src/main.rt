// Reads a text in hexadecimal from standard input, and writes the bytes that it stands for to standard output, or the
// line of its first fault to standard error. What is no text goes to standard output as it is, up to the most bytes
// that are read, which no bench file has. What is written is specs/Unhex.antt; what a text stands for is
// crates/hexadecimal.
#![tactic(auto)]

ghost use Rattle.std.specs.Prelude.{◌≡◌, List, ℕ, ◌+◌, ◌≤◌, length, take, is_err};
ghost use Rattle.streams.specs.Streams.{IsPrefixLen, ReadOf};
ghost use Rattle.hexadecimal.specs.Hex.{most, length_of};
ghost use Rattle.unhex.specs.Unhex.{written, is_error};

use hexadecimal::MOST;
use text::Writer;

fn main(rt: HostRuntime) {
    // One byte more than a text may have, so that a longer one is seen to be too long.
    let mut buffer = [0u8; MOST + 1];
    let mut out = [0u8; MOST + 1];
    if let Ok(count) = streams::read(&rt, b"unhex", &mut buffer) {
        match whole(&buffer, count, &mut out) {
            Ok(length) => streams::write(&rt, b"unhex", &out[..length]),
            Err(length) => streams::error(&rt, b"unhex", &out[..length]),
        }
    }
}

// Puts all that is written for the input at the start of `out`: `Ok` and `Err` have the length of what the input stands
// for, and of the line of its fault. The first `count` bytes of `buffer` are the input, as much of it as has room
// there: more of it would change nothing, and nothing of what is written is left off.
fn whole(buffer: &[u8], count: usize, out: &mut [u8]) -> Result<usize, usize>
    requires buffer_len { length buffer.now ≡ most + 1 }
    requires prefix_len { IsPrefixLen count buffer.now }
    requires most_in_bounds { most + 1 ≤ length out.old }
    ensures counted { IsPrefixLen (length_of result) out.new }
    ensures bytes { (input : List ℕ)
        → ReadOf input buffer.now count
        → take (length_of result) out.new ≡ written input }
    ensures error { (input : List ℕ)
        → ReadOf input buffer.now count
        → is_err result ≡ is_error input }
{
    let input = &buffer[..count];
    if hexadecimal::is_text(input) {
        return hexadecimal::unhex(input, out);
    }
    let mut binary = Writer::new(out);
    binary.append(input);
    Ok(binary.at)
}
