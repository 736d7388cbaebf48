// The streams of a program: standard input, standard output and standard error. Where a read or a write fails, a line
// on standard error says so, after the program's name.
//     read     fills a buffer from standard input; `read_once` is one read
//     write    writes bytes to standard output
//     error    writes a line to standard error; `fail` the line of a call that failed
// What a read leaves in the buffer, no contract can say: specs/Streams.antt is what the programs suppose of it.
#![tactic(auto)]

ghost use Rattle.std.specs.Prelude.{◌≤◌, length, IfSome, IfOk, IfErr};
ghost use Rattle.streams.specs.Streams.{IsPrefixLen};

use std::io;
use std::io::{Read, Write};

// Reads from standard input to the start of `buffer`, until that is full, the input ends or a read fails: `Err` where a
// read failed. Both have how many bytes were read.
pub fn read(rt: &HostRuntime, program: &[u8], buffer: &mut [u8]) -> Result<usize, usize>
    ensures counted { IfOk result (λ n. IsPrefixLen n buffer.new) }
    ensures failed { IfErr result (λ n. IsPrefixLen n buffer.new) }
{
    let mut done = 0;
    // One read may give less than there is room for; `read_exact` does not say how much it got before an end.
    while done < buffer.len() {
        let more = read_once(rt, program, &mut buffer[done..]).ok_or(done)?;
        if more == 0 {
            break;
        }
        done += more;
    }
    Ok(done)
}

// One read: no byte where the input has ended.
fn read_once(rt: &HostRuntime, program: &[u8], part: &mut [u8]) -> Option<usize>
    ensures { IfSome result (λ n. n ≤ length part.old) }
{
    match rt.stdin().read(part) {
        Ok(length) => Some(length),
        Err(reason) => {
            fail(rt, program, b": cannot read standard input", &reason);
            None
        }
    }
}

// Writes all of `bytes` to standard output.
pub fn write(rt: &HostRuntime, program: &[u8], bytes: &[u8]) {
    if let Err(reason) = rt.stdout().write_all(bytes) {
        fail(rt, program, b": cannot write standard output", &reason);
    }
}

// Writes a line to standard error, after the program's name.
pub fn error(rt: &HostRuntime, program: &[u8], line: &[u8]) {
    say(rt, program);
    say(rt, b": ");
    say(rt, line);
}

// Writes the line of a call that failed: the program's name, what it could not do, and the system's reason.
fn fail(rt: &HostRuntime, program: &[u8], what: &[u8], reason: &io::Error) {
    say(rt, program);
    say(rt, what);
    let _ = tell(rt, reason);
}

// The reason ends the line. The number that std puts behind the system's words is left off.
fn tell(rt: &HostRuntime, reason: &io::Error) -> io::Result<()> {
    let all = format!(in rt.alloc(); ": {reason}")?;
    match all.as_str().split_once(" (os error ") {
        Some((words, _)) => rt.eprintln(words),
        None => rt.eprintln(all.as_str()),
    }
}

// What cannot be written to standard error can be told nowhere.
fn say(rt: &HostRuntime, bytes: &[u8]) {
    let _ = rt.stderr().write_all(bytes);
}
