// Stored bench files without their dead links, and with the times of the rank timers (02, No. 5 and No. 10).
//     rewrite      what is written for a file: by `file_or_refusal`, the rewritten file or the line of its refusal
//     whole        the rewritten file: its head, the links that are kept, the changes as they were, the times, and the
//                  rest as it was
//     count_live   how many links are kept; `live_links` appends them
//     timed_rest   what follows the links
// What is written is specs/Rewriting.antt, the links that are kept are specs/Live.antt. That Read accepts the rewritten
// file and gives the old metric table, and what else is the same, is proofs/RewritingLaws.antt.
#![tactic(auto)]

ghost use Rattle.std.specs.Prelude.{◌≡◌, ◌≤◌, ◌<◌, ◌*◌, ◌+◌, length};
ghost use Rattle.bench_file.specs.Sections.{change_count_at, times_at};
ghost use Rattle.entries.specs.Entries.{entry_count};
ghost use Rattle.text.specs.Text.{Appended, Writes};
ghost use Rattle.rewriting.specs.Live.{live, live_count};
ghost use Rattle.rewriting.specs.Rewriting.{head, timed_rest, rewritten, written, Counted};

use area::limits::{ENTRY, UNUSED};
use bench_file::{Contents, Format, examine};
use entries::{Entries, count, decode};
use text::Writer;

// Hold time 0 and step time 1, in two bytes each: a stored file has been followed without ticks.
const TIMES: [u8; 4] = [0, 0, 0, 1];

// Puts what is written for a stored file at the start of `out`, as far as there is room, and gives its length.
pub fn rewrite(file: &[u8], out: &mut [u8]) -> usize
    ensures bytes { Appended out.old 0 (written file.now) out.new result }
{
    let mut text = Writer::new(out);
    file_or_refusal(&mut text, file);
    text.at
}

// The rewritten file, or the line of its refusal.
#[tactic(auto, using(crate::proofs::RewritingLaws::returns), unfolding(crate::specs::Rewriting::written))]
fn file_or_refusal(out: &mut Writer<'_>, file: &[u8])
    ensures { Writes out.old (written file.now) out.new }
{
    match examine(Format::Old, file) {
        Ok(found) => whole(out, file, found),
        Err(refusal) => out.refused_line(refusal.number()),
    }
}

// The file without its dead links, and with the times, by what it says of itself.
fn whole(out: &mut Writer<'_>, file: &[u8], found: Contents)
    requires { let changes_end = found.changes.at + 5 * found.changes.count in
        Counted file.now found.n found.links changes_end }
    ensures { Writes out.old (rewritten file.now) out.new }
{
    let links = &file[3..3 + ENTRY * found.links];
    write_head(out, found.n, count_live(links));
    live_links(out, links);
    let changes_end = found.changes.at + ENTRY * found.changes.count;
    timed_rest(out, file, 3 + ENTRY * found.links, changes_end);
}

// What follows the links, with the times put in between the changes, which begin with their count, and the steps.
fn timed_rest(out: &mut Writer<'_>, file: &[u8], from: usize, changes_end: usize)
    requires from_value { (from ≡ change_count_at file.now) × (changes_end ≡ times_at file.now) }
    requires file_in_bounds { times_at file.now ≤ length file.now }
    ensures { Writes out.old (timed_rest file.now) out.new }
{
    out.append(&file[from..changes_end]);
    out.append(&TIMES);
    out.append(&file[changes_end..]);
}

// n and the number of the links.
fn write_head(out: &mut Writer<'_>, n: usize, count: usize)
    requires { (n < 256) × (count < 65536) }
    ensures { Writes out.old (head n count) out.new }
{
    out.append(&[n as u8, (count / 256) as u8, (count % 256) as u8]);
}

// The links that are live. One is judged as an entry and kept as bytes, so that they go by their places.
fn live_links(out: &mut Writer<'_>, links: &[u8])
    requires { length links.now ≡ 5 * entry_count links.now }
    ensures { Writes out.old (live links.now (entry_count links.now)) out.new }
{
    for e in 0..count(links) {
        if decode(links, e).metric != UNUSED {
            out.append(&links[ENTRY * e..ENTRY * e + ENTRY]);
        }
    }
}

// How many links are live.
fn count_live(links: &[u8]) -> usize
    requires { length links.now ≡ 5 * entry_count links.now }
    ensures { let most = entry_count links.now in
        (result ≡ live_count links.now most) × (result ≤ most) }
{
    let mut kept = 0;
    for link in Entries::of(links) {
        if link.metric != UNUSED {
            kept += 1;
        }
    }
    kept
}
