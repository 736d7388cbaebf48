// Plan's record of a case, and its sets of four before the change and after it.
ghost use Rattle.std.specs.Prelude.{◌+◌, ◌*◌, ◌≤◌};
ghost use Rattle.area.specs.Limits.{most_changes};

use area::limits::{CELLS, Set};
use cases::{LONG_LIST, LONG_TABLE, lists, metrics, read};
use paths::Topology;
use plan::{Change, Record};

// The record for the links, the changes and the times of the words: all 0 where Plan refuses.
pub(crate) fn record(words: &[u8]) -> Record {
    let mut old_fours = [0; CELLS];
    let mut new_fours = [0; CELLS];
    planned(words, &mut old_fours, &mut new_fours)
}

// The same with the sets of four.
pub(crate) fn planned(
    words: &[u8],
    old_fours: &mut [Set; CELLS],
    new_fours: &mut [Set; CELLS],
) -> Record {
    let mut old = [0; LONG_TABLE];
    let mut list = [0; LONG_LIST];
    metrics::fill(&mut old, words);
    let bytes = lists::fill(&mut list, words);
    plan(words, &old, &list, bytes, old_fours, new_fours)
}

fn plan(
    words: &[u8],
    old: &[u32; LONG_TABLE],
    list: &[u8; LONG_LIST],
    bytes: usize,
    old_fours: &mut [Set; CELLS],
    new_fours: &mut [Set; CELLS],
) -> Record
    requires { bytes ≤ 5 * (most_changes + 2) }
{
    let mut new = [0; CELLS];
    let mut old_dist = [0; CELLS];
    let mut old_hops = [0; CELLS];
    let mut new_dist = [0; CELLS];
    let mut new_hops = [0; CELLS];
    let change = Change {
        n: read::value(words, b'p', 0) as usize,
        hold_time: read::time(words, b'h', 0),
        step_time: read::time(words, b'm', 1),
        metrics: &old[..CELLS],
        list: &list[..bytes],
    };
    let mut before = Topology {
        dist: &mut old_dist,
        hops: &mut old_hops,
        fours: old_fours,
    };
    let mut after = Topology {
        dist: &mut new_dist,
        hops: &mut new_hops,
        fours: new_fours,
    };
    plan::plan(change, &mut new, &mut before, &mut after).unwrap_or(plan::blank())
}
