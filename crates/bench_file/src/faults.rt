// The faults of a file's sections: each gives its first, in the order of the bytes. The format says whether dead links
// may stand among the links, and how many bytes the times take.
//     links    the links that the count announces
//     link     one of them, beside the pairs of those before it; `is_barred` where it is dead
//     rest     what follows the links, and what the file says of itself where that has no fault
// What the faults are is specs/Faults.antt; that `seen` tells a repeated pair is entries/proofs/SeenLaws.antt, and what
// follows for a link's refusal is proofs/Pairs.antt.
ghost use Rattle.std.specs.Prelude.{◌≡◌, ◌≤◌, ◌<◌, ◌*◌, IfOk, OnOk};
ghost use Rattle.area.specs.Limits.{width};
ghost use Rattle.area.specs.Refusals.{verdict_number, dead_link};
ghost use Rattle.area.specs.Tests.{pick, first};
ghost use Rattle.bench_file.specs.Sections.{routers, link_count};
ghost use Rattle.bench_file.specs.Faults.{dead_refusal, link_refusal, rest_refusal, seen_refusal};
ghost use Rattle.bench_file.specs.Read.{contents};

use crate::{Contents, Format, Section};
use area::bytes::two;
use area::limits::{ENTRY, MOST_CHANGES, MOST_STEPS, STEP, Set, UNUSED, WIDTH};
use area::refusal::Refusal;
use entries::{Entries, Entry, check};
use sets::{add, member};
use std::cmp::Ordering;

// `list` is the bytes from the first link on.
pub(crate) fn links(format: Format, n: usize, list: &[u8], announced: usize) -> Result<(), Refusal>
    requires { n ≤ width }
    ensures { verdict_number result ≡ first announced (link_refusal format n list.now) }
{
    // Set i holds every j of a link from i to j. The metric table can't tell: a dead link leaves no trace there.
    let mut seen: [Set; WIDTH] = [0; WIDTH];
    let mut entries = Entries::of(list);
    // So many are announced, whether the list has them or not.
    for _ in 0..announced {
        let Some(entry) = entries.next() else {
            return Err(Refusal::Incomplete);
        };
        link(format, n, entry, &seen)?;
        seen[entry.from] = add(seen[entry.from], entry.to);
    }
    Ok(())
}

#[tactic(auto, using(area::proofs::TestLaws::then_some, entries::proofs::EntryLaws::faultless_of))]
fn link(format: Format, n: usize, entry: Entry, seen: &[Set; WIDTH]) -> Result<(), Refusal>
    requires { n ≤ width }
    ensures answer { verdict_number result ≡ seen_refusal format n entry seen.now }
    ensures in_sets { OnOk result (entry.from < width) }
{
    check(n, entry)?;
    if is_barred(format, entry) {
        return Err(Refusal::DeadLink);
    }
    if member(seen[entry.from], entry.to) {
        return Err(Refusal::Repeated);
    }
    Ok(())
}

// Is the link dead, in a format that takes none such?
#[tactic(auto, unfolding(crate::specs::Faults::dead_refusal))]
fn is_barred(format: Format, entry: Entry) -> bool
    ensures { dead_refusal format entry ≡ pick result dead_link 0 }
{
    !format.takes_dead() && entry.metric == UNUSED
}

// `links` is their number. Each count is tested before what it counts.
#[tactic(auto, unfolding(crate::specs::Faults::rest_refusal, crate::specs::Read::contents))]
pub(crate) fn rest(format: Format, file: &[u8], n: usize, links: usize) -> Result<Contents, Refusal>
    requires n_value { n ≡ routers file.now }
    requires links_value { links ≡ link_count file.now }
    requires links_bound { links < 65536 }
    ensures answer { verdict_number result ≡ rest_refusal format file.now }
    ensures contents { IfOk result (λ x. x ≡ contents format file.now) }
{
    let change_count_at = 3 + ENTRY * links;
    let Some(&changes) = file.get(change_count_at) else {
        return Err(Refusal::Incomplete);
    };
    let changes = usize::from(changes);
    if MOST_CHANGES < changes {
        return Err(Refusal::TooMany);
    }
    let times_at = change_count_at + 1 + ENTRY * changes;
    let step_count_at = times_at + format.times_size();
    if file.len() < step_count_at + 2 {
        return Err(Refusal::Incomplete);
    }
    let steps = two(file, step_count_at);
    if MOST_STEPS < steps {
        return Err(Refusal::TooMany);
    }
    match file.len().cmp(&(step_count_at + 2 + STEP * steps)) {
        Ordering::Less => Err(Refusal::Incomplete),
        Ordering::Greater => Err(Refusal::Trailing),
        Ordering::Equal => Ok(Contents {
            n,
            links,
            changes: Section {
                count: changes,
                at: change_count_at + 1,
            },
            steps: Section {
                count: steps,
                at: step_count_at + 2,
            },
            hold_time: format.time_at(file, times_at),
            step_time: format.time_at(file, times_at + 2),
        }),
    }
}
