// The metric table that Paths is handed.
ghost use Rattle.std.specs.Prelude.{◌≡◌, ◌<◌, ◌≤◌, ◌*◌, length, get_or};
ghost use Rattle.area.specs.Limits.{width};
ghost use Rattle.area.specs.Tests.{all};
ghost use Rattle.paths.specs.Paths.{in_range, are_metrics_from, are_metrics};

use area::limits::{UNUSED, WIDTH};

// Is the metric of every ordered pair of different routers 1 to 16,777,215?
pub(crate) fn are_valid(n: usize, metric: &[u32]) -> bool
    requires { (n ≤ width) × (length metric.now ≡ width * width) }
    ensures { result ≡ are_metrics n metric.now }
{
    (0..n).all(|i| is_valid_row(n, metric, i))
}

// The same of the links from router i: those to lower routers, and those to higher ones.
fn is_valid_row(n: usize, metric: &[u32], i: usize) -> bool
    requires { (n ≤ width) × (i < n) × (length metric.now ≡ width * width) }
    ensures { result ≡ are_metrics_from n metric.now i }
{
    let row = &metric[WIDTH * i..WIDTH * i + n];
    are_in_range(&row[..i]) && are_in_range(&row[i + 1..])
}

// Is each of these 1 to 16,777,215? The loop goes on after a fault, so that the compiler tests several metrics at a
// time.
fn are_in_range(metrics: &[u32]) -> bool
    ensures { result ≡ all (length metrics.now) (λ k. in_range (get_or metrics.now k 0)) }
{
    let mut valid = true;
    for m in metrics {
        valid &= (1..=UNUSED).contains(m);
    }
    valid
}
