// The steps of a case: a step is a letter and one or two numbers, as W0.2.
ghost use Rattle.std.specs.Prelude.{◌<◌, ◌≤◌};

use cases::read;

// Is number k of the words the first of a step?
pub(crate) fn is_step(words: &[u8], k: usize) -> bool {
    let letter = read::mark(words, k);
    b'A' <= letter && letter <= b'Z'
}

// The kind of a step by its letter. The numbers are written out here, and not taken from the crate `machine`, so that a
// wrong one there shows; 0, 7 and 255 are no kinds.
pub(crate) fn kind(words: &[u8], k: usize) -> u8 {
    match read::mark(words, k) {
        b'L' => 1,
        b'R' => 2,
        b'W' => 3,
        b'F' => 4,
        b'D' => 5,
        b'T' => 6,
        b'S' => 7,
        b'X' => 255,
        _ => 0,
    }
}

// The first byte after the kind.
pub(crate) fn a(words: &[u8], k: usize) -> u8 {
    (read::number(words, k) % 256) as u8
}

// The second one, or 0 where the step has one number.
pub(crate) fn b(words: &[u8], k: usize) -> u8
    requires { k < 200 }
{
    if read::mark(words, k + 1) != b'.' {
        return 0;
    }
    a(words, k + 1)
}

// Puts the bytes of the step that begins with number k, if there is one, at a place of `bytes`, as far as there is room
// for them and two bytes more. Gives the place after them.
pub(crate) fn put(bytes: &mut [u8; 194], at: usize, words: &[u8], k: usize) -> usize
    requires { (at ≤ 192) × (k < 200) }
    ensures { result ≤ 192 }
{
    if 189 < at || !is_step(words, k) {
        return at;
    }
    bytes[at] = kind(words, k);
    bytes[at + 1] = a(words, k);
    bytes[at + 2] = b(words, k);
    at + 3
}
