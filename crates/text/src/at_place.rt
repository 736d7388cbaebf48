// Appending for callers that keep the place themselves: the text is the first `at` bytes of `out`, or all of it where
// `at` is behind its end, and each function gives the new length of the text.
ghost use Rattle.text.specs.Text.{Appended, decimal, field, line, refused_line};

use crate::Writer;

// Appends `bytes`.
#[tactic(auto, using(crate::proofs::WriterLaws::text_after))]
pub fn append(out: &mut [u8], at: usize, bytes: &[u8]) -> usize
    ensures appended { Appended out.old at bytes.now out.new result }
{
    let mut text = Writer::after(out, at);
    text.append(bytes);
    text.at
}

// Appends x in decimal.
#[tactic(auto, using(crate::proofs::WriterLaws::text_after))]
pub fn number(out: &mut [u8], at: usize, x: u64) -> usize
    ensures appended { Appended out.old at (decimal x) out.new result }
{
    let mut text = Writer::after(out, at);
    text.number(x);
    text.at
}

// Appends a number after its name.
#[tactic(auto, using(crate::proofs::WriterLaws::text_after))]
pub fn field(out: &mut [u8], at: usize, name: &[u8], x: u64) -> usize
    ensures appended { Appended out.old at (field name.now x) out.new result }
{
    let mut text = Writer::after(out, at);
    text.field(name, x);
    text.at
}

// Appends a line: a number after its name.
#[tactic(auto, using(crate::proofs::WriterLaws::text_after))]
pub fn line(out: &mut [u8], at: usize, name: &[u8], x: u64) -> usize
    ensures appended { Appended out.old at (line name.now x) out.new result }
{
    let mut text = Writer::after(out, at);
    text.line(name, x);
    text.at
}

// Appends the line of a refusal, by its number.
#[tactic(auto, using(crate::proofs::WriterLaws::text_after))]
pub fn refused_line(out: &mut [u8], at: usize, number: u8) -> usize
    ensures line { Appended out.old at (refused_line number) out.new result }
{
    let mut text = Writer::after(out, at);
    text.refused_line(number);
    text.at
}
