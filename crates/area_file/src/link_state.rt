// The text of an area by its link-state data, which comes as one stream: a table of identities behind its length, and
// then the lists. What is appended is specs/FromIsis.antt.
ghost use Rattle.std.specs.Prelude.{◌≡◌};
ghost use Rattle.text.specs.Text.{Appended, Writes};
ghost use Rattle.area_file.specs.FromIsis.{table_of, text_of, isis_text, isis_table};

use crate::append_area;
use area::bytes::two;
use hexadecimal::MOST;
use text::Writer;

// Lists of more bytes are not read: as many as a text in hexadecimal may have.
pub const MOST_BYTES: usize = MOST;

// Puts the text of the area at the start of `out`, or the line that says why there is none, as far as there is room,
// and gives its length. The metric table is lent to be filled, as isis::read fills it.
pub fn from_isis(stream: &[u8], table: &mut [u32], out: &mut [u8]) -> usize
    ensures text { Appended out.old 0 (isis_text stream.now table.old) out.new result }
    ensures metrics { table.new ≡ isis_table stream.now table.old }
{
    let start = stream.len().min(2);
    let lists = stream.len().min(2 + two(stream, 0));
    let mut text = Writer::new(out);
    of_lists(&mut text, &stream[start..lists], &stream[lists..], table);
    text.at
}

// The same, by the table of identities and the lists.
#[tactic(auto, using(area::proofs::RefusalLaws::refusal_positive), unfolding(crate::specs::FromIsis::text_of))]
fn of_lists(out: &mut Writer<'_>, identities: &[u8], lists: &[u8], table: &mut [u32])
    ensures text { Writes out.old (text_of identities.now lists.now table.old) out.new }
    ensures metrics { table.new ≡ table_of identities.now lists.now table.old }
{
    if MOST_BYTES < lists.len() {
        out.append(b"too long\n");
        return;
    }
    let n = isis::count(lists);
    match isis::read(n, identities, lists, table) {
        Ok(()) => append_area(out, n, table),
        Err(refusal) => out.refused_line(refusal.number()),
    }
}
