// The routers of a fresh record.
ghost use Rattle.std.specs.Prelude.{◌<◌};
ghost use Rattle.area.specs.Limits.{width};

use area::limits::{Set, WIDTH};
use cases::print;
use plan::Record;

// A line for each router of the record.
pub fn routers(rt: &HostRuntime, n: usize, r: Record) {
    // By the number of the router: a record has it in four arrays.
    for k in 0..n.min(WIDTH) {
        line(rt, k, r.ranks[k], r.waiting[k], r.telling[k], r.due[k]);
    }
}

fn line(rt: &HostRuntime, k: usize, rank: u8, waiting: Set, telling: Set, due: Set) {
    print::form(
        rt,
        b"router # rank # waits # tells # due #\n",
        &[k as u64, rank as u64, waiting, telling, due],
    );
}

// For how many routers the record has what no fresh one has.
pub fn stray(r: Record) -> u64 {
    let strays = (0..WIDTH).filter(|k| is_stray(&r, *k));
    strays.count() as u64
}

// Has router k a state, a written set or a learn time, or from n on anything?
fn is_stray(r: &Record, k: usize) -> bool
    requires { k < width }
{
    r.states[k] != 0
        || r.written[k] != 0
        || r.learn_times[k] != 0
        || usize::from(r.n) <= k && is_known(r.ranks[k], r.waiting[k], r.telling[k], r.due[k])
}

fn is_known(rank: u8, waiting: Set, telling: Set, due: Set) -> bool {
    rank != 0 || waiting != 0 || telling != 0 || due != 0
}
