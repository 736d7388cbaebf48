// A text, and of a long one its length, a checksum and its first lines, and of the longest rehearsal the last ones.
ghost use Rattle.std.specs.Prelude.{◌<◌};

use area::limits::{MOST_STEPS, WIDTH};
use cases::{lines, print};

pub fn print(rt: &HostRuntime, text: &[u8]) {
    if text.len() < 10000 {
        print::text(rt, text);
    } else {
        short(rt, text);
    }
}

// The rehearsal of most routers and most steps has a line for each, `needs` between them, and an end: the lines of the
// routers, `needs`, two steps, and the last three lines.
fn short(rt: &HostRuntime, text: &[u8]) {
    print::form(
        rt,
        b"length #\nchecksum #\n",
        &[text.len() as u64, checksum(text)],
    );
    let first = lines::start(text, WIDTH + 3);
    let last = lines::start(text, WIDTH + MOST_STEPS - 1);
    print::text(rt, &text[..first]);
    print::text(rt, &text[last..]);
}

// A sum of all bytes that depends on their order.
fn checksum(text: &[u8]) -> u64 {
    let mut sum = 0;
    for b in text {
        sum = added(sum, *b);
    }
    sum
}

fn added(sum: u64, b: u8) -> u64
    requires { sum < 4294967291 }
    ensures { result < 4294967291 }
{
    (sum * 257 + u64::from(b)) % 4294967291
}
