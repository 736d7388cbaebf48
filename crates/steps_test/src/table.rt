// The table of states and events, in a line for each state: the next state by `after`, and then the answer of the
// machine's method and the state that it hands back. A number that is no state has a line too.
use crate::{others, records, show};
use cases::print;
use machine::kinds::Kind;
use machine::states::{Event, State};
use plan::Record;

pub(crate) fn show(rt: &HostRuntime) {
    for number in [0, 1, 2, 3, 4, 255] {
        line(rt, number);
    }
}

fn line(rt: &HostRuntime, number: u8) {
    print::text(rt, b"from ");
    state(rt, number);
    print::text(rt, b": learn ");
    cell(rt, number, Event::Learn, Kind::Learn);
    print::text(rt, b"; release ");
    cell(rt, number, Event::Release, Kind::Release);
    print::text(rt, b"; write ");
    cell(rt, number, Event::Write, Kind::Write);
    print::text(rt, b"; finish ");
    cell(rt, number, Event::Finish, Kind::Finish);
    print::byte(rt, b'\n');
}

// The event at router 0, which is in the state of this number, and the call of its kind.
fn cell(rt: &HostRuntime, number: u8, event: Event, kind: Kind) {
    match State::from(number).after(event) {
        Some(to) => state(rt, to.number()),
        None => print::text(rt, b"none"),
    }
    let stepped = others::method(ready(number, event), kind.number(), 0, 1);
    let back = stepped.next;
    print::text(rt, b", ");
    show::outcome(rt, stepped.answer);
    print::byte(rt, b' ');
    state(rt, back.states[0]);
}

// A record in which nothing but the state of router 0 can be in the way: destination 1 is due where it is to be
// written, and nothing where the router is to finish.
fn ready(number: u8, event: Event) -> Record {
    let mut r = records::blank(2, 0, 0);
    r.states[0] = number;
    if event == Event::Write {
        r.due[0] = 2;
    }
    r
}

fn state(rt: &HostRuntime, number: u8) {
    match number {
        0 => print::text(rt, b"idle"),
        1 => print::text(rt, b"holding"),
        2 => print::text(rt, b"ongoing"),
        3 => print::text(rt, b"done"),
        _ => print::number(rt, u64::from(number)),
    }
}
