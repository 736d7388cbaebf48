// How much two records differ.
ghost use Rattle.std.specs.Prelude.{◌+◌, ◌*◌, ◌<◌, ◌≤◌};
ghost use Rattle.area.specs.Limits.{width};

use area::limits::WIDTH;
use plan::Record;

// In how many entries two records differ: of the tables, and n, root, direction and the times of all routers.
pub(crate) fn records(x: Record, y: Record) -> u64
    ensures { result ≤ 7 * width + 6 }
{
    let of_plan = unlike(x.n, y.n) + unlike(x.root, y.root) + unlike(x.direction, y.direction);
    of_plan + times(x, y) + tables(x, y)
}

// The hold time, the step time and the clock.
fn times(x: Record, y: Record) -> u64
    ensures { result ≤ 3 }
{
    let of_holding = unlike(x.hold_time, y.hold_time);
    let of_steps = unlike(x.step_time, y.step_time);
    of_holding + of_steps + unlike(x.clock, y.clock)
}

// The seven tables.
fn tables(x: Record, y: Record) -> u64
    ensures { result ≤ 7 * width }
{
    let of_bytes = table(&x.ranks, &y.ranks) + table(&x.states, &y.states);
    let of_plan = table(&x.waiting, &y.waiting) + table(&x.telling, &y.telling);
    let of_messages = table(&x.due, &y.due) + table(&x.written, &y.written);
    let of_times = table(&x.learn_times, &y.learn_times);
    of_bytes + of_plan + of_messages + of_times
}

// In how many entries two tables differ.
fn table<T: PartialEq + Copy>(x: &[T; WIDTH], y: &[T; WIDTH]) -> u64
    ensures { result ≤ width }
{
    x.iter().zip(y).filter(|(a, b)| a != b).count() as u64
}

// 1 where the two differ.
pub(crate) fn unlike<T: PartialEq + Drop>(x: T, y: T) -> u64
    ensures { result ≤ 1 }
{
    u64::from(x != y)
}
