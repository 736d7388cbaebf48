// The routes: distances and full next-hop sets of every pair of routers, before the change and after it. The first line
// says that the sets are full ones.
ghost use Rattle.std.specs.Prelude.{◌≡◌, ◌≤◌, ◌<◌};
ghost use Rattle.area.specs.Limits.{width};
ghost use Rattle.paths.specs.Paths.{held};
ghost use Rattle.text.specs.Text.{Writes};
ghost use Rattle.report.specs.Lines.{path, is_printed, pair_text, row_lines, route_lines, routes_lines};
ghost use Rattle.report.specs.Parts.{Full};

use crate::lines::{Path, route_line};
use area::limits::{UNREACHED, WIDTH};
use paths::Topology;
use text::Writer;

// What sets are printed, and the lines of all pairs.
pub(crate) fn printed(n: usize, old: &Topology<'_>, new: &Topology<'_>, text: &mut Writer<'_>)
    requires n_le_width { n ≤ width }
    requires full { Full (held old.now) (held new.now) }
    ensures lines { let lines = routes_lines
        old.now.dist.now old.now.hops.now
        new.now.dist.now new.now.hops.now n in
        Writes text.old lines text.new }
{
    text.append(b"full next-hop sets\n");
    route_lines(n, old, new, text);
}

// The lines of all pairs.
#[tactic(auto, using(crate::proofs::LineLaws::written), unfolding(crate::specs::Lines::route_lines))]
fn route_lines(n: usize, old: &Topology<'_>, new: &Topology<'_>, text: &mut Writer<'_>)
    requires n_le_width { n ≤ width }
    requires full { Full (held old.now) (held new.now) }
    ensures lines { let lines = route_lines
        old.now.dist.now old.now.hops.now
        new.now.dist.now new.now.hops.now n n in
        Writes text.old lines text.new }
{
    // By number: a line shows it.
    for i in 0..n {
        row_lines(n, i, old, new, text);
    }
}

// The lines of the pairs of router i.
#[tactic(auto, using(crate::proofs::LineLaws::written), unfolding(crate::specs::Lines::row_lines))]
fn row_lines(n: usize, i: usize, old: &Topology<'_>, new: &Topology<'_>, text: &mut Writer<'_>)
    requires n_le_width { (n ≤ width) × (i < width) }
    requires full { Full (held old.now) (held new.now) }
    ensures lines { let lines = row_lines
        old.now.dist.now old.now.hops.now
        new.now.dist.now new.now.hops.now i n in
        Writes text.old lines text.new }
{
    // By number: a line shows both, and they say where the cells are.
    for j in 0..n {
        let k = WIDTH * i + j;
        let before = Path {
            distance: old.dist[k],
            hops: old.hops[k],
        };
        let after = Path {
            distance: new.dist[k],
            hops: new.hops[k],
        };
        pair_text(i, j, before, after, text);
    }
}

// The line of a pair, where it has one.
#[tactic(auto, using(crate::proofs::LineLaws::written), unfolding(crate::specs::Lines::pair_text))]
fn pair_text(i: usize, j: usize, before: Path, after: Path, text: &mut Writer<'_>)
    ensures text { Writes text.old (pair_text i j before after) text.new }
{
    if is_printed(i, j, before, after) {
        route_line(i as u64, j as u64, before, after, text);
    }
}

// Has the pair a line?
#[tactic(auto, unfolding(crate::specs::Lines::is_printed))]
fn is_printed(i: usize, j: usize, before: Path, after: Path) -> bool
    ensures answer { result ≡ is_printed i j before after }
{
    i != j && !(before.distance == UNREACHED && after.distance == UNREACHED)
}
