// The lines of a step section in hexadecimal, each appended to a text as those of src/lines.rt are.
ghost use Rattle.std.specs.Prelude.{◌++◌};
ghost use Rattle.machine.specs.Kinds.{kind_number};
ghost use Rattle.machine.specs.Run.{call};
ghost use Rattle.text.specs.Text.{Writes};
ghost use Rattle.hexadecimal.specs.Digits.{hex_byte};
ghost use Rattle.report.specs.Lines.{count_line, call_line};

use hexadecimal::hex_byte;
use machine::kinds::Kind;
use text::Writer;

// The count of steps.
#[tactic(auto, using(crate::proofs::LineLaws::written), unfolding(crate::specs::Lines::count_line))]
pub(crate) fn count_line(count: u16, text: &mut Writer<'_>)
    ensures line { Writes text.old (count_line count) text.new }
{
    hex_byte(text, (count / 256) as u8);
    hex_byte(text, (count % 256) as u8);
    text.append(b"\n");
}

// A call of this kind.
pub(crate) fn call_line(kind: Kind, a: u8, b: u8, text: &mut Writer<'_>)
    ensures line { Writes text.old (call_line (call (kind_number kind) a b)) text.new }
{
    hex_byte(text, kind.number());
    text.append(b" ");
    hex_byte(text, a);
    text.append(b" ");
    hex_byte(text, b);
    text.append(b"\n");
}
