// The input of a test program: standard input, and the files that lie beside it.
ghost use Rattle.std.specs.Prelude.{◌≡◌, ◌≤◌, ℕ, List, length, take, IfSome};

use std::fs::File;
use std::io::Read;
use std::str;

// Puts the start of standard input into `buffer`, until that is full, the input ends or a read fails.
pub fn standard(rt: &HostRuntime, buffer: &mut [u8]) -> usize
    ensures inside { (result ≤ length buffer.new) × (result ≡ length (take result buffer.new)) }
{
    let mut source = rt.stdin();
    fill(&mut source, buffer)
}

// The same of the file of this name, and nothing where it cannot be opened.
pub fn file(rt: &HostRuntime, path: &[u8], buffer: &mut [u8]) -> Option<usize>
    ensures inside { IfSome result (λ n. (n ≤ length buffer.new) × (n ≡ length (take n buffer.new))) }
{
    let Ok(name) = str::from_utf8(path) else {
        return None;
    };
    match File::open(rt, name) {
        Ok(mut source) => Some(fill(&mut source, buffer)),
        Err(_) => None,
    }
}

fn fill<R: Read>(source: &mut R, buffer: &mut [u8]) -> usize
    ensures inside { (result ≤ length buffer.new) × (result ≡ length (take result buffer.new)) }
{
    let mut done = 0;
    while done < buffer.len() {
        let more = read_once(source, &mut buffer[done..]);
        if more == 0 {
            break;
        }
        done += more;
    }
    done
}

// One read: 0 where the input has ended, and where the read fails.
fn read_once<R: Read>(source: &mut R, part: &mut [u8]) -> usize
    ensures { result ≤ length part.old }
{
    match source.read(part) {
        Ok(count) => count,
        Err(_) => 0,
    }
}
