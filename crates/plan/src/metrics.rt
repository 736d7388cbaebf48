// The metric table after the change.
ghost use Rattle.std.specs.Prelude.{◌≡◌, ℕ, [], ◌≤◌, ◌<◌, ◌*◌, length, get_or};
ghost use Rattle.area.specs.Limits.{width};
ghost use Rattle.area.specs.Tables.{tabulate};
ghost use Rattle.changes.specs.Sound.{Sound};
ghost use Rattle.plan.specs.NewMetrics.{new_cell, new_metrics};
ghost use Rattle.plan.specs.Parts.{RowCopied};

use area::limits::{UNUSED, WIDTH};
use area::metrics::clear;
use entries::Entries;

// The new metrics: the old ones, with every change put in. The list is of bytes, of which a metric has three: so the
// new ones are such as Paths takes.
pub(crate) fn apply(n: usize, old: &[u32], list: &[u8], new: &mut [u32])
    requires n_le_width { (n ≤ width) × (length old.now ≡ width * width) × (length new.old ≡ width * width) }
    requires sound { Sound n list.now }
    ensures cells { new.new ≡ new_metrics n old.now list.now }
    ensures bytes { (k : ℕ) → get_or list.now k 0 < 256 }
{
    copy(n, old, new);
    for change in Entries::of(list) {
        new[WIDTH * change.from + change.to] = change.metric;
    }
}

// The old metrics, with `UNUSED` on the diagonal and beyond n.
fn copy(n: usize, old: &[u32], new: &mut [u32])
    requires { (n ≤ width) × (length old.now ≡ width * width) × (length new.old ≡ width * width) }
    ensures { new.new ≡ tabulate width (new_cell n old.now []) }
{
    clear(new);
    // Rows by their numbers: of rows that an iterator has lent, a proof knows no cell afterwards.
    for i in 0..n {
        copy_row(n, old, i, new);
    }
}

// The metrics of the links from router i.
fn copy_row(n: usize, old: &[u32], i: usize, new: &mut [u32])
    requires n_le_width { (n ≤ width) × (i < n) }
    requires len { (length old.now ≡ width * width) × (length new.old ≡ width * width) }
    ensures { RowCopied n old.now i new.old new.new }
{
    let start = WIDTH * i;
    // Cell by cell: for `copy_from_slice` of what C lends the compiler calls memmove, and the archive for C is to need
    // no more than memcpy and memset.
    for k in start..start + n {
        new[k] = old[k];
    }
    new[start + i] = UNUSED;
}
