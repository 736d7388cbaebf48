// From words to bytes: two digits of hexadecimal are a byte, a letter from G to Z is an identity, *F4 is so many bytes
// of 0 (here 244), and all else says nothing.
ghost use Rattle.std.specs.Prelude.{◌≡◌, ◌<◌};

// What has been read of a text.
#[derive(Clone, Copy)]
struct Reading {
    // How many bytes it has given.
    length: usize,
    // The first digit of a pair, inside one.
    high: Option<u8>,
    // The next pair says how many bytes of 0 follow.
    counts: bool,
}

// Fills the start of `out`, which holds nothing but 0, and gives the number of bytes. No case has more than 1,792.
pub fn fill(out: &mut [u8; 2048], text: &[u8]) -> usize
    ensures inside { result < 2048 }
{
    let mut reading = between(0);
    for b in text {
        reading = next(out, reading, *b);
    }
    reading.length
}

// What has been read with one byte of the text more. Where the next bytes might not have room nothing is read.
fn next(out: &mut [u8; 2048], reading: Reading, b: u8) -> Reading
    requires { reading.length < 2048 }
    ensures { result.length < 2048 }
{
    let length = reading.length;
    if 1792 <= length {
        return reading;
    }
    match b {
        b'*' => Reading {
            counts: true,
            ..between(length)
        },
        b'G'..=b'Z' => {
            out[length + 5] = b;
            between(length + 7)
        }
        b'0'..=b'9' => with_digit(out, reading, b - b'0'),
        b'A'..=b'F' => with_digit(out, reading, b - b'A' + 10),
        _ => reading,
    }
}

// The same for a digit.
fn with_digit(out: &mut [u8; 2048], reading: Reading, x: u8) -> Reading
    requires { reading.length < 1792 }
    ensures { result.length < 2048 }
{
    let length = reading.length;
    let Some(high) = reading.high else {
        return Reading {
            high: Some(x),
            ..reading
        };
    };
    let byte = (high << 4) | x;
    if reading.counts {
        return between(length + usize::from(byte));
    }
    out[length] = byte;
    between(length + 1)
}

// After so many bytes, between two pairs.
fn between(length: usize) -> Reading
    ensures { result.length ≡ length }
{
    Reading {
        length,
        high: None,
        counts: false,
    }
}
