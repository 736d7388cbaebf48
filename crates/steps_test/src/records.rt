// Records: Plan's, and those made by hand.
ghost use Rattle.std.specs.Prelude.{◌<◌};

use crate::planning;
use area::limits::WIDTH;
use cases::read;
use plan::Record;

// The record with what the words say.
pub(crate) fn with_words(left: Record, words: &[u8]) -> Record {
    let mut r = left;
    // The number of a word is a place in no slice: it is looked for in the line.
    for k in 0..read::MOST {
        r = with_word(r, words, k);
    }
    r
}

// The word whose first number is number k.
fn with_word(r: Record, words: &[u8], k: usize) -> Record
    requires { k < 200 }
{
    let letter = read::mark(words, k);
    let x = read::number(words, k);
    if letter == b'p' {
        return planning::record(words);
    }
    if letter == b'n' {
        return blank(x, read::value(words, b'r', 0), read::value(words, b'q', 0));
    }
    if letter == b'h' || letter == b'm' || letter == b'y' {
        return with_time(r, letter, x);
    }
    with_entry(r, letter, x as usize, read::number(words, k + 1))
}

// A record with step time 1, in which all else is 0.
pub(crate) fn blank(n: u64, root: u64, direction: u64) -> Record {
    Record {
        n: byte(n),
        root: byte(root),
        direction: byte(direction),
        ranks: [0; WIDTH],
        waiting: [0; WIDTH],
        telling: [0; WIDTH],
        due: [0; WIDTH],
        states: [0; WIDTH],
        written: [0; WIDTH],
        hold_time: 0,
        step_time: 1,
        clock: 0,
        learn_times: [0; WIDTH],
    }
}

// The record with another hold time, step time or clock.
fn with_time(mut r: Record, letter: u8, x: u64) -> Record {
    match letter {
        b'h' => r.hold_time = (x % 65536) as u16,
        b'm' => r.step_time = (x % 65536) as u16,
        _ => r.clock = time(x),
    }
    r
}

// The record with one entry of router i replaced.
fn with_entry(mut r: Record, letter: u8, i: usize, x: u64) -> Record {
    if WIDTH <= i {
        return r;
    }
    match letter {
        b'k' => r.ranks[i] = byte(x),
        b's' => r.states[i] = byte(x),
        b'w' => r.waiting[i] = x,
        b't' => r.telling[i] = x,
        b'd' => r.due[i] = x,
        b'v' => r.written[i] = x,
        b'l' => r.learn_times[i] = time(x),
        _ => {}
    }
    r
}

fn byte(x: u64) -> u8 {
    (x % 256) as u8
}

fn time(x: u64) -> u32 {
    (x % 4294967296) as u32
}
