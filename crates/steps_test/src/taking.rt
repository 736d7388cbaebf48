// Takes the steps of a case.
ghost use Rattle.std.specs.Prelude.{◌<◌, ◌≤◌};

use crate::{call, compare, others, show};
use cases::{print, read};
use plan::Record;
use steps::Machine;

// Takes the steps one by one, and then all at once from their bytes. Gives the last record.
pub(crate) fn steps(rt: &HostRuntime, first: Record, words: &[u8]) -> Record {
    let mut now = first;
    let mut differing = 0u64;
    let mut bytes = [1; 194];
    let mut end = 0;
    // The number of a word is a place in no slice: it is looked for in the line.
    for k in 0..read::MOST {
        // No line is long enough for this sum to wrap.
        differing = differing.wrapping_add(others::differing(now, words, k));
        end = call::put(&mut bytes, end, words, k);
        now = step(rt, now, words, k);
    }
    show::clock(rt, now.clock);
    show::routers(rt, &now);
    print::form(rt, b"; methods # run", &[differing]);
    again(rt, first, now, &bytes, end);
    now
}

// The step that begins with number k, if there is one.
fn step(rt: &HostRuntime, now: Record, words: &[u8], k: usize) -> Record
    requires { k < 200 }
{
    if !call::is_step(words, k) {
        return now;
    }
    let stepped = Machine { now }.step(call::kind(words, k), call::a(words, k), call::b(words, k));
    let next = stepped.next;
    show::step(rt, words, k);
    show::answer(rt, stepped.answer, compare::records(now, next));
    next
}

// In how many entries the last record differs where the steps are taken from their bytes, and from these and one or two
// more, which would begin a learn of router 1.
fn again(rt: &HostRuntime, first: Record, last: Record, bytes: &[u8; 194], end: usize)
    requires { end ≤ 192 }
{
    let differs = |end: usize| compare::records(last, steps::run(first, &bytes[..end]));
    print::form(
        rt,
        b" # # #\n",
        &[differs(end), differs(end + 1), differs(end + 2)],
    );
}
