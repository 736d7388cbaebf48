// Other ways to take a step.
ghost use Rattle.std.specs.Prelude.{◌+◌, ◌*◌, ◌<◌, ◌≤◌};
ghost use Rattle.area.specs.Limits.{width};

use crate::{call, compare};
use in_place::applied;
use machine::kinds::Kind;
use plan::Record;
use steps::{Machine, Stepped};

// In how many answers and entries the method and the call in place differ from the step that begins with number k, if
// there is one.
pub(crate) fn differing(now: Record, words: &[u8], k: usize) -> u64
    requires { k < 200 }
{
    if !call::is_step(words, k) {
        return 0;
    }
    let kind = call::kind(words, k);
    let a = call::a(words, k);
    let b = call::b(words, k);
    let stepped = Machine { now }.step(kind, a, b);
    unlike(stepped, method(now, kind, a, b)) + unlike(stepped, applied(now, kind, a, b))
}

// A step by the method of its kind. Kinds that have none are left to `step`.
pub(crate) fn method(now: Record, kind: u8, a: u8, b: u8) -> Stepped {
    let machine = Machine { now };
    match Kind::try_from(kind) {
        Ok(Kind::Learn) => machine.learn(a),
        Ok(Kind::Release) => machine.release(a),
        Ok(Kind::Write) => machine.write(a, b),
        Ok(Kind::Finish) => machine.finish(a),
        Ok(Kind::Deliver) => machine.deliver(a, b),
        Ok(Kind::Tick) => machine.tick(),
        Err(_) => machine.step(kind, a, b),
    }
}

fn unlike(x: Stepped, y: Stepped) -> u64
    ensures { result ≤ 7 * width + 7 }
{
    compare::records(x.next, y.next) + compare::unlike(x.answer, y.answer)
}
