// Bytes as digits, two for each, appended to a text. `hex_bytes_at` and `hex_byte_at` are for callers that keep the
// place themselves: the text is the first `at` bytes of `out`, or all of it where `at` is behind its end, and they give
// its new length.
ghost use Rattle.std.specs.Prelude.{◌≡◌, ◌<◌};
ghost use Rattle.text.specs.Text.{Appended, Writes};
ghost use Rattle.hexadecimal.specs.Digits.{hex_digit, hex_byte, hexed};

use text::Writer;

// Appends the digits of all `bytes`.
#[tactic(auto, using(crate::proofs::PrintingLaws::each_byte))]
pub fn hex_bytes(out: &mut Writer<'_>, bytes: &[u8])
    ensures text { Writes out.old (hexed bytes.now) out.new }
{
    for &x in bytes {
        hex_byte(out, x);
    }
}

// Appends the two digits of a byte.
#[tactic(auto, unfolding(crate::specs::Digits::hex_byte))]
pub fn hex_byte(out: &mut Writer<'_>, x: u8)
    ensures text { Writes out.old (hex_byte x) out.new }
{
    out.append(&[hex_digit(x / 16), hex_digit(x % 16)]);
}

// Appends the digits of all `bytes` at a place.
#[tactic(auto, using(text::proofs::WriterLaws::text_after))]
pub fn hex_bytes_at(bytes: &[u8], out: &mut [u8], at: usize) -> usize
    ensures text { Appended out.old at (hexed bytes.now) out.new result }
{
    let mut text = Writer::after(out, at);
    hex_bytes(&mut text, bytes);
    text.at
}

// Appends the two digits of a byte at a place.
#[tactic(auto, using(text::proofs::WriterLaws::text_after))]
pub fn hex_byte_at(x: u8, out: &mut [u8], at: usize) -> usize
    ensures text { Appended out.old at (hex_byte x) out.new result }
{
    let mut text = Writer::after(out, at);
    hex_byte(&mut text, x);
    text.at
}

// A digit, in capitals.
#[tactic(auto, unfolding(crate::specs::Digits::hex_digit))]
fn hex_digit(d: u8) -> u8
    requires { d < 16 }
    ensures digit { result ≡ hex_digit d }
{
    if d < 10 { 48 + d } else { 55 + d }
}
