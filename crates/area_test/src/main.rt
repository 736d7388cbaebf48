// Runs the functions on router sets, entries and refusals, and prints what they give.
//     one_router    what a set says of a router, with it and without it
//     two_sets      subsets and joined sets
//     of_four       the four lowest members of a set
//     listed        the entries of a list
//     refusals      the number of each refusal
#![tactic(auto)]

use area::limits::Set;
use area::refusal::{Refusal, number_of};
use cases::print;

fn main(rt: HostRuntime) {
    one_router(&rt);
    two_sets(&rt);
    of_four(&rt);
    listed(&rt);
    refusals(&rt);
}

fn truth(rt: &HostRuntime, yes: bool) {
    print::text(rt, if yes { b"yes" } else { b"no" });
}

// The first and the last router that a set can hold, members and others, and routers that no set holds.
fn one_router(rt: &HostRuntime) {
    let asked = [
        (0, 0),
        (1, 0),
        (6, 0),
        (6, 2),
        (0, 31),
        (4294967296, 32),
        (4294967295, 32),
        (0, 62),
        (0, 63),
        (9223372036854775808, 63),
        (18446744073709551615, 63),
        (18446744073709551615, 62),
        (18446744073709551615, 5),
        (18446744073709551615, 64),
        (0, 64),
        (1, 64),
        (1, 128),
        (6, 18446744073709551615),
    ];
    for (s, k) in asked {
        router(rt, s, k);
    }
}

fn router(rt: &HostRuntime, s: Set, k: usize) {
    print::form(rt, b"set # router # member ", &[s, k as u64]);
    truth(rt, sets::member(s, k));
    print::form(
        rt,
        b" with # without # empty ",
        &[sets::add(s, k), sets::remove(s, k)],
    );
    truth(rt, sets::is_empty(s));
    print::byte(rt, b'\n');
}

fn two_sets(rt: &HostRuntime) {
    let asked = [
        (0, 0),
        (0, 5),
        (5, 0),
        (5, 7),
        (7, 5),
        (6, 3),
        (4294967296, 1),
        (1, 4294967297),
        (9223372036854775808, 18446744073709551615),
        (18446744073709551615, 9223372036854775808),
    ];
    for (s, t) in asked {
        pair(rt, s, t);
    }
}

fn pair(rt: &HostRuntime, s: Set, t: Set) {
    print::form(rt, b"sets # # subset ", &[s, t]);
    truth(rt, sets::is_subset(s, t));
    print::form(rt, b" joined #\n", &[sets::join(s, t)]);
}

// Sets with fewer members than four, with four and with more, at both ends and in the middle.
fn of_four(rt: &HostRuntime) {
    let asked = [
        0, // no member
        1, // 0
        9223372036854775808, // 63
        9223372036854775809, // 0, 63
        4294967296, // 32
        13835058055282163713, // 0, 62, 63
        16140901064495857664, // 61, 62, 63
        7, // 0, 1, 2
        15, // 0, 1, 2, 3
        13835058055282163715, // 0, 1, 62, 63
        16140901064495857665, // 0, 61, 62, 63
        17293822569102704640, // 60, 61, 62, 63
        9223372043297226753, // 0, 31, 32, 63
        9223372043297226754, // 1, 31, 32, 63
        62, // 1 to 5, without 5
        9223372036854775823, // 0, 1, 2, 3, 63, without 63
        16140901064495857667, // 0, 1, 61, 62, 63, without 63
        17293822569102704641, // 0, 60, 61, 62, 63, without 63
        17870283321406128128, // 59 to 63, without 63
        18374686479671623680, // 56 to 63, the first four
        16140901070938308611, // 0, 1, 31, 32, 61, 62, 63, the first four
        9223372036854775806, // 1 to 62, the first four
        18446744073709551614, // all but 0, the first four
        18446744073709551615, // all, the first four
    ];
    for s in asked {
        print::form(rt, b"set # four #\n", &[s, sets::four(s)]);
    }
}

// Three entries, and two bytes of a fourth.
fn listed(rt: &HostRuntime) {
    let list = [0, 1, 0, 0, 1, 63, 255, 255, 255, 255, 2, 3, 1, 2, 3, 9, 9];
    count(rt, &list);
    for e in [0, 1, 2, 3, 18446744073709551615] {
        entry(rt, &list, e);
    }
    count(rt, &list[..4]);
    entry(rt, &list[..4], 0);
}

fn count(rt: &HostRuntime, list: &[u8]) {
    print::form(rt, b"entries #\n", &[entries::count(list) as u64]);
}

fn entry(rt: &HostRuntime, list: &[u8], e: usize) {
    let found = entries::decode(list, e);
    print::form(
        rt,
        b"entry # from # to # metric #\n",
        &[
            e as u64,
            found.from as u64,
            found.to as u64,
            found.metric as u64,
        ],
    );
}

// The number of an answer that refuses nothing, and those of all refusals, in the order in which the papers first name
// them.
fn refusals(rt: &HostRuntime) {
    let accepted: Result<(), Refusal> = Ok(());
    let refused: Result<(), Refusal> = Err(Refusal::Incomplete);
    print::form(rt, b"accepted # ", &[u64::from(number_of(&accepted))]);
    truth(rt, accepted.is_ok());
    print::byte(rt, b' ');
    truth(rt, refused.is_ok());
    print::text(rt, b"\nrefused");
    for why in all() {
        let answer: Result<(), Refusal> = Err(why);
        print::form(rt, b" #", &[u64::from(number_of(&answer))]);
    }
    print::byte(rt, b'\n');
}

fn all() -> [Refusal; 28] {
    [
        Refusal::RouterCount,
        Refusal::TableSize,
        Refusal::Metric,
        Refusal::Incomplete,
        Refusal::TooMany,
        Refusal::NoChange,
        Refusal::UnknownRouter,
        Refusal::SelfLink,
        Refusal::Repeated,
        Refusal::SameMetric,
        Refusal::Mixed,
        Refusal::NoCommonRouter,
        Refusal::Trailing,
        Refusal::Record,
        Refusal::Kind,
        Refusal::State,
        Refusal::Waiting,
        Refusal::NotDue,
        Refusal::Unwritten,
        Refusal::NotDone,
        Refusal::NotTold,
        Refusal::DeadLink,
        Refusal::PastList,
        Refusal::LongSubTlvs,
        Refusal::UnknownIdentity,
        Refusal::TooEarly,
        Refusal::ClockEnd,
        Refusal::NoStepTime,
    ]
}
