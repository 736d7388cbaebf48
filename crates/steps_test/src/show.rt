// Parts of a line of the output.
ghost use Rattle.std.specs.Prelude.{◌<◌};

use area::limits::WIDTH;
use cases::{print, read};
use machine::{Answer, Effect};
use plan::Record;

// The step that begins with number k.
pub(crate) fn step(rt: &HostRuntime, words: &[u8], k: usize)
    requires { k < 200 }
{
    print::byte(rt, b' ');
    print::byte(rt, read::mark(words, k));
    print::number(rt, read::number(words, k));
    if read::mark(words, k + 1) == b'.' {
        print::byte(rt, b'.');
        print::number(rt, read::number(words, k + 1));
    }
}

// An answer, and how many entries changed.
pub(crate) fn answer(rt: &HostRuntime, answer: Answer, changed: u64) {
    print::byte(rt, b'=');
    outcome(rt, answer);
    print::byte(rt, b'/');
    print::number(rt, changed);
}

// An answer: a refusal by its number.
pub(crate) fn outcome(rt: &HostRuntime, answer: Answer) {
    match answer {
        Ok(Effect::Applied) => print::text(rt, b"ok"),
        Ok(Effect::Ignored) => print::text(rt, b"ignored"),
        Err(why) => print::number(rt, u64::from(why.number())),
    }
}

pub(crate) fn clock(rt: &HostRuntime, time: u32) {
    print::form(rt, b"; clock #", &[u64::from(time)]);
}

// State, waiting, due and written set and learn time of each router of the area.
pub(crate) fn routers(rt: &HostRuntime, now: &Record) {
    print::byte(rt, b';');
    // Five tables are read at each router's number, so it is counted.
    for k in 0..WIDTH.min(usize::from(now.n)) {
        print::form(
            rt,
            b" #/#/#/#/#",
            &[
                u64::from(now.states[k]),
                now.waiting[k],
                now.due[k],
                now.written[k],
                u64::from(now.learn_times[k]),
            ],
        );
    }
}
