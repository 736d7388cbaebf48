// Reads link-state data from standard input, and writes the bench file of its area as a text in hexadecimal, or the
// line that says why there is none. What is written is `isis_text` of crates/area_file/specs/FromIsis.antt, the whole
// of it, of the whole input; this program has buffers with room for both.
#![tactic(auto)]

ghost use Rattle.std.specs.Prelude.{◌≡◌, List, ℕ, ◌+◌, ◌≤◌, ◌<◌, length, take};
ghost use Rattle.streams.specs.Streams.{IsPrefixLen};
ghost use Rattle.area_file.specs.FromIsis.{most_bytes, isis_text};
ghost use Rattle.area_file.specs.AreaFile.{room};
ghost use Rattle.streams.specs.Streams.{ReadOf};

use area::limits::CELLS;
use area_file::{MOST_BYTES, ROOM};

// The longest table of identities, behind its length, and the longest lists that are read.
const LONGEST: usize = 2 + 65535 + MOST_BYTES;

fn main(rt: HostRuntime) {
    // One byte more, so that longer lists are seen to be too long.
    let mut stream = [0u8; LONGEST + 1];
    let mut table = [0u32; CELLS];
    let mut out = [0u8; ROOM];
    if let Ok(count) = streams::read(&rt, b"from_isis", &mut stream) {
        let length = whole(&stream, count, &mut table, &mut out);
        streams::write(&rt, b"from_isis", &out[..length]);
    }
}

// Puts all that is written for the input at the start of `out`, and gives its length. The first `count` bytes of
// `stream` are the input, as much of it as has room there: more of it would change nothing, and nothing is left off.
fn whole(stream: &[u8], count: usize, table: &mut [u32], out: &mut [u8]) -> usize
    requires most_bytes_in_bounds { 2 + 65535 + most_bytes < length stream.now }
    requires prefix_len { IsPrefixLen count stream.now }
    requires room_in_bounds { room ≤ length out.old }
    ensures counted { IsPrefixLen result out.new }
    ensures text { (input : List ℕ)
        → ReadOf input stream.now count
        → take result out.new ≡ isis_text input table.old }
{
    area_file::from_isis(&stream[..count], table, out)
}
