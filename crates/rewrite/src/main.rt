// Reads a stored bench file from standard input, and writes it without its dead links, or its refusal alone. What is
// written is `written` of crates/rewriting/specs/Rewriting.antt, the whole of it, of the whole input; this
// program has buffers with room for both.
#![tactic(auto)]

ghost use Rattle.std.specs.Prelude.{◌≡◌, List, ℕ, ◌≤◌, ◌<◌, length, take};
ghost use Rattle.streams.specs.Streams.{IsPrefixLen};
ghost use Rattle.bench_file.specs.Sections.{largest};
ghost use Rattle.rewriting.specs.Rewriting.{written};
ghost use Rattle.streams.specs.Streams.{ReadOf};

use area::limits::LARGEST;

fn main(rt: HostRuntime) {
    // One byte more than the largest file has, so that a longer one is seen to be too long.
    let mut file = [0u8; LARGEST + 1];
    let mut out = [0u8; LARGEST];
    if let Ok(count) = streams::read(&rt, b"rewrite", &mut file) {
        let length = whole(&file, count, &mut out);
        streams::write(&rt, b"rewrite", &out[..length]);
    }
}

// Puts all that is written for the input at the start of `out`, and gives its length. The first `count` bytes of `file`
// are the input, as much of it as has room there: more of it would change nothing, and nothing is left off.
fn whole(file: &[u8], count: usize, out: &mut [u8]) -> usize
    requires largest_in_bounds { largest < length file.now }
    requires prefix_len { IsPrefixLen count file.now }
    requires largest_in_bounds_2 { largest ≤ length out.old }
    ensures counted { IsPrefixLen result out.new }
    ensures bytes { (input : List ℕ)
        → ReadOf input file.now count
        → take result out.new ≡ written input }
{
    rewriting::rewrite(&file[..count], out)
}
