// The bench file: one area, one change and a list of steps, as bytes. In the order in which a file goes through them:
//     Format       how the two formats differ: dead links, and the times
//     examine      judges a file of either format, and gives what it says of itself: where changes and steps begin
//     is_router_count      the first test of it: has an area so many routers?
//     faults       links, rest: the first fault of the links, and of what follows them
//     read         Read: the same in the new format, and fills the metric table
//     metrics      put: the table of the links
// Definitions, in reading order: specs/Formats.antt (how the formats differ), Sections.antt (what stands where),
// Faults.antt (the refusals), Read.antt (the promise). What a caller may conclude from them is proofs/FileLaws.antt;
// the loops' arguments are proofs/Pairs.antt (repeated pairs) and proofs/Linking.antt (the table).
#![tactic(auto)]

mod faults;
mod metrics;

ghost use Rattle.std.specs.Prelude.{◌≡◌, ◌≤◌, true, IfOk};
ghost use Rattle.area.specs.Limits.{width};
ghost use Rattle.area.specs.Refusals.{verdict_number};
ghost use Rattle.area.specs.Sizes.{is_router_count};
ghost use Rattle.bench_file.specs.Formats.{takes_dead, times_size, time_at};
ghost use Rattle.bench_file.specs.Faults.{file_refusal};
ghost use Rattle.bench_file.specs.Read.{read_refusal, contents_by, contents_of, metrics_of};

use area::bytes::two;
use area::limits::{CELLS, WIDTH};
use area::metrics::clear;
use area::refusal::Refusal;

// The format of stored files, in which links may be listed that are not used and which is without the times, and the
// format of Read.
#[derive(Clone, Copy, Debug, PartialEq, Eq)]
pub enum Format {
    Old,
    New,
}

// How many entries or steps a section has, and the place of its first byte in the file.
#[derive(Clone, Copy, Debug, PartialEq, Eq)]
pub struct Section {
    pub count: usize,
    pub at: usize,
}

// What a file says of itself.
#[derive(Clone, Copy, Debug, PartialEq, Eq)]
pub struct Contents {
    pub n: usize,
    pub links: usize,
    pub changes: Section,
    pub steps: Section,
    // Hold time and step time of the rank timers, 0 where the format has none.
    pub hold_time: u16,
    pub step_time: u16,
}

impl Format {
    // May a link be listed that is not used?
    fn takes_dead(self) -> bool
        ensures { result ≡ takes_dead self }
    {
        match self {
            Format::Old => true,
            Format::New => false,
        }
    }

    // How many bytes the two times take.
    fn times_size(self) -> usize
        ensures { (result ≡ times_size self) × (result ≤ 4) }
    {
        match self {
            Format::Old => 0,
            Format::New => 4,
        }
    }

    // The time that begins at this place of the file, 0 where the format has none.
    fn time_at(self, file: &[u8], at: usize) -> u16
        ensures { result ≡ time_at self file.now at }
    {
        match self {
            Format::Old => 0,
            Format::New => two(file, at) as u16,
        }
    }
}

// Read: judges the file, fills the metric table with its links, and gives what the file says of itself.
#[tactic(auto, using(crate::proofs::Reading::reading))]
pub fn read(file: &[u8], table: &mut [u32]) -> Result<Contents, Refusal>
    ensures answer { verdict_number result
        ≡ read_refusal file.now table.old }
    ensures contents { IfOk result (λ x. x
        ≡ contents_of file.now table.old) }
    ensures metrics { table.new
        ≡ metrics_of file.now table.old }
{
    if table.len() != CELLS {
        return Err(Refusal::TableSize);
    }
    clear(table);
    let contents = examine(Format::New, file)?;
    metrics::put(&file[3..], contents.links, table);
    Ok(contents)
}

// Judges a file, and gives what it says of itself where it is accepted.
#[tactic(auto, unfolding(crate::specs::Faults::file_refusal, crate::specs::Faults::most_links))]
pub fn examine(format: Format, file: &[u8]) -> Result<Contents, Refusal>
    ensures answer { verdict_number result
        ≡ file_refusal format file.now }
    ensures contents { IfOk result (λ x. x
        ≡ contents_by format file.now) }
{
    let Some(&n) = file.first() else {
        return Err(Refusal::Incomplete);
    };
    let n = usize::from(n);
    if !is_router_count(n) {
        return Err(Refusal::RouterCount);
    }
    if file.len() < 3 {
        return Err(Refusal::Incomplete);
    }
    let announced = two(file, 1);
    if n * (n - 1) < announced {
        return Err(Refusal::TooMany);
    }
    faults::links(format, n, &file[3..], announced)?;
    faults::rest(format, file, n, announced)
}

// Has an area so many routers?
#[tactic(auto, using(crate::proofs::Reading::counting))]
fn is_router_count(n: usize) -> bool
    ensures answer { result ≡ is_router_count n }
    ensures within { result ≡ true → (1 ≤ n) × (n ≤ width) }
{
    (1..=WIDTH).contains(&n)
}
