// The bench file of an area as a text in hexadecimal, ready for changes and steps to be typed in.
//     append_area      the text of an area, by its metric table; `append_area_at` the same at a place
//     count_links      how many links are listed; `link_lines` appends them, one `link_line` after another
//     is_listed        which cells of the table are links
//     link_state       `from_isis`: the same by link-state data, which crate `isis` makes a metric table of
// What is appended is specs/AreaFile.antt. That it says the bytes of a bench file, and how long it is, is
// proofs/AreaFileLaws.antt; that Read accepts this file and gives the table back is proofs/ReadAgainLaws.antt.
#![tactic(auto)]

mod link_state;

ghost use Rattle.std.specs.Prelude.{◌≡◌, ◌≤◌, ◌<◌, ◌*◌, length};
ghost use Rattle.area.specs.Limits.{width, unused};
ghost use Rattle.text.specs.Text.{Appended, Writes};
ghost use Rattle.hexadecimal.specs.Digits.{hexed};
ghost use Rattle.area_file.specs.AreaFile.{link, is_listed, links_of, link_bytes, link_lines};
ghost use Rattle.area_file.specs.AreaFile.{routers_line, count_line, link_line, words_line, last_lines};
ghost use Rattle.area_file.specs.AreaFile.{is_sized, area_text};

use area::limits::{CELLS, UNUSED, WIDTH};
use hexadecimal::hex_bytes;
pub use link_state::{MOST_BYTES, from_isis};
use text::Writer;

// As many bytes as have room for the text of any area: a line for each cell, and the other five lines.
pub const ROOM: usize = 37 * CELLS + 150;

// Appends the text of an area of n routers with these metrics; nothing where there is no such area.
#[tactic(auto, using(crate::proofs::LineLaws::area_sized))]
pub fn append_area(out: &mut Writer<'_>, n: usize, metrics: &[u32])
    ensures text { Writes out.old (area_text n metrics.now) out.new }
{
    if !is_sized(n, metrics) {
        return;
    }
    routers_line(out, n);
    count_line(out, count_links(n, metrics));
    link_lines(out, n, metrics);
    last_lines(out);
}

// The same for callers that keep the place themselves: the text is the first `at` bytes of `out`, or all of it where
// `at` is behind its end. Gives its new length.
#[tactic(auto, using(text::proofs::WriterLaws::text_after))]
pub fn append_area_at(n: usize, metrics: &[u32], out: &mut [u8], at: usize) -> usize
    ensures text { Appended out.old at (area_text n metrics.now) out.new result }
{
    let mut text = Writer::after(out, at);
    append_area(&mut text, n, metrics);
    text.at
}

// Have n and the table the sizes of an area?
#[tactic(auto, using(crate::proofs::LineLaws::sizes), unfolding(crate::specs::AreaFile::is_sized))]
fn is_sized(n: usize, metrics: &[u32]) -> bool
    ensures answer { result ≡ is_sized n metrics.now }
{
    1 <= n && n <= WIDTH && metrics.len() == CELLS
}

// How many links are listed.
fn count_links(n: usize, metrics: &[u32]) -> usize
    requires { (n ≤ width) × (length metrics.now ≡ width * width) }
    ensures { (result ≡ length (links_of n metrics.now)) × (result ≤ width * width) }
{
    let cells = metrics[..WIDTH * n].iter().enumerate();
    cells
        .filter(|&(k, &metric)| is_listed(n, k, metric))
        .count()
}

// Is the cell at place k, with this metric, a link?
#[tactic(auto, unfolding(crate::specs::AreaFile::is_listed))]
fn is_listed(n: usize, k: usize, metric: u32) -> bool
    ensures answer { result ≡ is_listed n k metric }
{
    k % WIDTH < n && k / WIDTH != k % WIDTH && metric < UNUSED
}

// The number of routers.
#[tactic(auto, using(text::proofs::WriterLaws::writes_then), unfolding(crate::specs::AreaFile::routers_line))]
fn routers_line(out: &mut Writer<'_>, n: usize)
    requires { n ≤ width }
    ensures { Writes out.old (routers_line n) out.new }
{
    hex_bytes(out, &[n as u8]);
    out.line(b"            # routers ", n as u64);
}

// The number of links.
#[tactic(auto, using(text::proofs::WriterLaws::writes_then), unfolding(crate::specs::AreaFile::count_line))]
fn count_line(out: &mut Writer<'_>, count: usize)
    requires { count ≤ width * width }
    ensures { Writes out.old (count_line count) out.new }
{
    let [high, low] = (count as u16).to_be_bytes();
    hex_bytes(out, &[high, low]);
    out.line(b"          # links ", count as u64);
}

// A line for each link.
fn link_lines(out: &mut Writer<'_>, n: usize, metrics: &[u32])
    requires { (n ≤ width) × (length metrics.now ≡ width * width) }
    ensures { Writes out.old (link_lines (links_of n metrics.now)) out.new }
{
    for (k, &metric) in metrics[..WIDTH * n].iter().enumerate() {
        if is_listed(n, k, metric) {
            link_line(out, k / WIDTH, k % WIDTH, metric);
        }
    }
}

// The line of a link.
#[tactic(auto, using(text::proofs::WriterLaws::writes_then), unfolding(crate::specs::AreaFile::link_line))]
fn link_line(out: &mut Writer<'_>, from: usize, to: usize, metric: u32)
    requires { (from < width) × (to < width) × (metric < unused) }
    ensures { Writes out.old (link_line (link from to metric)) out.new }
{
    link_digits(out, from, to, metric);
    out.field(b"    # ", from as u64);
    out.field(b" to ", to as u64);
    out.line(b" at ", metric as u64);
}

// The digits of its five bytes.
fn link_digits(out: &mut Writer<'_>, from: usize, to: usize, metric: u32)
    requires { (from < width) × (to < width) × (metric < unused) }
    ensures { Writes out.old (hexed (link_bytes (link from to metric))) out.new }
{
    let [_, high, middle, low] = metric.to_be_bytes();
    hex_bytes(out, &[from as u8, to as u8, high, middle, low]);
}

// No changes, the times that a file is given, and no steps.
#[tactic(auto, using(text::proofs::WriterLaws::writes_then), unfolding(crate::specs::AreaFile::last_lines))]
fn last_lines(out: &mut Writer<'_>)
    ensures { Writes out.old last_lines out.new }
{
    words_line(out, &[0], b"            # changes\n");
    words_line(out, &[0, 0, 0, 1], b"      # hold time 0, step time 1\n");
    words_line(out, &[0, 0], b"          # steps\n");
}

// The digits of these bytes, and a comment without numbers.
#[tactic(auto, using(text::proofs::WriterLaws::writes_then))]
fn words_line(out: &mut Writer<'_>, bytes: &[u8], words: &[u8])
    ensures { Writes out.old (words_line bytes.now words.now) out.new }
{
    hex_bytes(out, bytes);
    out.append(words);
}
