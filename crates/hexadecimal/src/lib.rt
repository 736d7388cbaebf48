// Text in hexadecimal to bytes, and bytes to digits.
//     unhex                what a text is in bytes, or the line that says its first fault, or that it is too long
//     is_text              is this a text, or a binary file?
//     decode               the loop over the text: each byte gets its reading by that of the byte before it
//     fault_line           the line of a fault
//     step                 the next reading: `first` where a pair may start, `second` after a first digit
//     digit, is_space, is_control      what a byte is by itself
//     printing             `hex_byte`, `hex_bytes`: the digits of bytes; `hex_byte_at`, `hex_bytes_at`: at a place
// What comes of a text is specs/Hex.antt. The laws of single bytes are proofs/ReadingLaws.antt; that every list of
// bytes has a text, and that ROOM is enough, is proofs/HexLaws.antt; what is written where there is a fault, and where
// there is none, is proofs/FaultLaws.antt; that no bench file is taken for a text is proofs/BinaryLaws.antt; the
// argument of the loop over a text is proofs/Decoding.antt. The digits of bytes are specs/Digits.antt; that they say
// these bytes is proofs/PairLaws.antt.
#![tactic(auto)]

mod printing;

ghost use Rattle.std.specs.Prelude.{◌≡◌, ◌<◌, length, is_err, IfOk, IfErr};
ghost use Rattle.text.specs.Text.{Appended};
ghost use Rattle.hexadecimal.specs.Hex.{is_space, first, second, next, is_control, is_text};
ghost use Rattle.hexadecimal.specs.Hex.{unhexed, is_faulty, length_of};
ghost use Rattle.hexadecimal.specs.Reading.{high_half, digit_value, fault_line};

pub use printing::{hex_byte, hex_byte_at, hex_bytes, hex_bytes_at};
use text::Writer;

// A longer text is not decoded.
pub const MOST: usize = 262144;

// As many bytes as have room for all that is written for a text.
pub const ROOM: usize = MOST / 2;

// What a byte of a text is, by the bytes before it.
#[derive(Clone, Copy)]
enum Reading {
    // White space, or the end of a comment.
    Between,
    // Part of a comment.
    Comment,
    // The first digit of a pair: the high half of a byte.
    High(u8),
    // The second digit of a pair: a whole byte.
    Byte(u8),
    // A byte that may not stand here.
    Bad,
    // White space or a comment after the first digit of a pair.
    Odd,
}

// What is wrong with a text.
#[derive(Clone, Copy)]
enum Fault {
    TooLong,
    // At this place stands a byte that may not stand there.
    Bad(usize),
    // At this place stands a digit that has no second digit.
    Odd(usize),
}

// Writes what `text` is in bytes, or the line that says its first fault, to the start of `out`, as far as that has
// room. `Ok` and `Err` have the length of the one and of the other.
pub fn unhex(text: &[u8], out: &mut [u8]) -> Result<usize, usize>
    ensures written { Appended out.old 0 (unhexed text.now) out.new (length_of result) }
    ensures fault { is_err result ≡ is_faulty text.now }
{
    match decode(text, out) {
        Ok(length) => Ok(length),
        Err(fault) => Err(fault_line(fault, out)),
    }
}

// Writes what `text` is in bytes. Where it has a fault, something of it is written all the same.
fn decode(text: &[u8], out: &mut [u8]) -> Result<usize, Fault>
    ensures size { length out.new ≡ length out.old }
    ensures ok { IfOk result (λ n. Appended out.old 0 (unhexed text.now) out.new n) }
    ensures err { IfErr result (λ fault. unhexed text.now ≡ fault_line fault) }
    ensures fault { is_err result ≡ is_faulty text.now }
{
    if MOST < text.len() {
        return Err(Fault::TooLong);
    }
    let mut bytes = Writer::new(out);
    let mut reading = Reading::Between;
    for (at, &b) in text.iter().enumerate() {
        reading = step(reading, b);
        match reading {
            Reading::Bad => return Err(Fault::Bad(at)),
            Reading::Odd => return Err(Fault::Odd(at - 1)),
            Reading::Byte(x) => bytes.append(&[x]),
            _ => {}
        }
    }
    if let Reading::High(_) = reading {
        return Err(Fault::Odd(text.len() - 1));
    }
    Ok(bytes.at)
}

// Writes the line of a fault.
#[tactic(auto, using(text::proofs::WriterLaws::whole_text), unfolding(crate::specs::Reading::fault_line))]
fn fault_line(fault: Fault, out: &mut [u8]) -> usize
    ensures { Appended out.old 0 (fault_line fault) out.new result }
{
    let mut line = Writer::new(out);
    match fault {
        Fault::TooLong => line.append(b"too long\n"),
        Fault::Bad(at) => line.line(b"bad digit at ", at as u64),
        Fault::Odd(at) => line.line(b"odd digit at ", at as u64),
    }
    line.at
}

// Is this a text? It has no control byte other than white space. A bench file has one: the high byte of its link count
// or, where that is white space, an end of one of its many links.
pub fn is_text(bytes: &[u8]) -> bool
    ensures answer { result ≡ is_text bytes.now }
{
    !bytes.iter().any(|&b| is_control(b))
}

// What the byte b is after a byte that was read as `before`.
#[tactic(auto, unfolding(crate::specs::Hex::next, crate::specs::Reading::high_half))]
fn step(before: Reading, b: u8) -> Reading
    requires { high_half before < 16 }
    ensures { result ≡ next before b }
{
    match before {
        Reading::Between | Reading::Byte(_) => first(b),
        Reading::Comment if b == b'\n' => Reading::Between,
        Reading::Comment => Reading::Comment,
        Reading::High(h) => second(h, b),
        Reading::Bad | Reading::Odd => before,
    }
}

// What the byte b is where a byte may start.
#[tactic(auto, unfolding(crate::specs::Hex::first, crate::specs::Reading::digit_value))]
fn first(b: u8) -> Reading
    ensures { result ≡ first b }
{
    match digit(b) {
        Some(half) => Reading::High(half),
        None if is_space(b) => Reading::Between,
        None if b == b'#' => Reading::Comment,
        None => Reading::Bad,
    }
}

// What the byte b is after the high half h.
#[tactic(auto, unfolding(crate::specs::Hex::second, crate::specs::Reading::digit_value))]
fn second(h: u8, b: u8) -> Reading
    requires { h < 16 }
    ensures { result ≡ second h b }
{
    match digit(b) {
        Some(half) => Reading::Byte(16 * h + half),
        None if is_space(b) || b == b'#' => Reading::Odd,
        None => Reading::Bad,
    }
}

// The value of a hexadecimal digit.
#[tactic(auto, unfolding(crate::specs::Hex::digit, crate::specs::Reading::digit_value))]
fn digit(b: u8) -> Option<u8>
    ensures { result ≡ digit_value b }
{
    match b {
        b'0'..=b'9' => Some(b - b'0'),
        b'A'..=b'F' => Some(b - b'A' + 10),
        b'a'..=b'f' => Some(b - b'a' + 10),
        _ => None,
    }
}

// Is b white space?
#[tactic(auto, unfolding(crate::specs::Hex::is_space))]
fn is_space(b: u8) -> bool
    ensures { result ≡ is_space b }
{
    matches!(b, 9..=13 | b' ')
}

// Is b a control byte other than white space?
#[tactic(auto, unfolding(crate::specs::Hex::is_control))]
fn is_control(b: u8) -> bool
    ensures { result ≡ is_control b }
{
    b < 32 && !is_space(b)
}
