// Texts in a lent buffer: a text is the first bytes of the buffer, and each method of `Writer` appends to it. What the
// buffer has no room for is left off.
//     writer       the struct `Writer`
//     new, after   the empty text, and one that is there already
//     append       bytes
//     number       a number in decimal, by `spell`, which puts the digits down from the last one back
//     field        a number after its name
//     line         the same as a line
//     refused_line     the line of a refusal
//     at_place     the same as functions, for callers that keep the place themselves
// What they promise is specs/Text.antt; what a caller may conclude is proofs/WriterLaws.antt of writers, and
// proofs/TextLaws.antt of texts. The argument of the copy is proofs/Copying.antt, that of the loop of `spell`
// proofs/Spelling.antt.
#![tactic(auto)]

mod at_place;
mod writer;

ghost use Rattle.std.specs.Prelude.{◌≡◌, ◌≤◌, min, length, drop};
ghost use Rattle.text.specs.Text.{Writes, decimal, field, line, refused_line};

pub use at_place::{append, field, line, number, refused_line};
pub use writer::Writer;

impl<'a> Writer<'a> {
    // The empty text, at the start of `out`.
    pub fn new(out: &'a mut [u8]) -> Writer<'a>
        ensures same { result.out.ghost_name ≡ out.entry.ghost_name }
        ensures empty { (result.out.now ≡ out.old) × (result.at ≡ 0) }
    {
        Writer { out, at: 0 }
    }

    // The text of the first `at` bytes of `out`, or of all of them where there are fewer.
    pub fn after(out: &'a mut [u8], at: usize) -> Writer<'a>
        ensures same { result.out.ghost_name ≡ out.entry.ghost_name }
        ensures kept { (result.out.now ≡ out.old) × (result.at ≡ min at (length out.old)) }
    {
        let at = at.min(out.len());
        Writer { out, at }
    }

    // Appends `bytes`.
    pub fn append(&mut self, bytes: &[u8])
        ensures appended { Writes self.old bytes.now self.new }
    {
        let count = bytes.len().min(self.out.len() - self.at);
        let end = self.at + count;
        self.out[self.at..end].copy_from_slice(&bytes[..count]);
        self.at = end;
    }

    // Appends x in decimal.
    pub fn number(&mut self, x: u64)
        ensures appended { Writes self.old (decimal x) self.new }
    {
        let mut digits = [0u8; 20];
        let from = spell(x, &mut digits);
        self.append(&digits[from..]);
    }

    // Appends a number after its name.
    #[tactic(auto, using(crate::proofs::WriterLaws::writes_then), unfolding(crate::specs::Text::field))]
    pub fn field(&mut self, name: &[u8], x: u64)
        ensures appended { Writes self.old (field name.now x) self.new }
    {
        self.append(name);
        self.number(x);
    }

    // Appends a line: a number after its name.
    #[tactic(auto, using(crate::proofs::WriterLaws::writes_then), unfolding(crate::specs::Text::line))]
    pub fn line(&mut self, name: &[u8], x: u64)
        ensures appended { Writes self.old (line name.now x) self.new }
    {
        self.field(name, x);
        self.append(b"\n");
    }

    // Appends the line of a refusal, by its number.
    #[tactic(auto, unfolding(crate::specs::Text::refused_line))]
    pub fn refused_line(&mut self, number: u8)
        ensures line { Writes self.old (refused_line number) self.new }
    {
        self.line(b"refused ", number as u64);
    }
}

// Puts the decimal digits of x at the end of `digits`, and gives the place of the first.
fn spell(x: u64, digits: &mut [u8]) -> usize
    requires { length digits.old ≡ 20 }
    ensures { (result ≤ 20) × (drop result digits.new ≡ decimal x) }
{
    let mut from = 19;
    let mut rest = x;
    // Digit by digit: std prints a number through a formatter, which takes more of a line than the number.
    while 10 <= rest {
        digits[from] = 48 + (rest % 10) as u8;
        rest /= 10;
        from -= 1;
    }
    digits[from] = 48 + rest as u8;
    from
}
