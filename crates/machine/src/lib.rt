// The machine of the steps. Here stand the words that code uses: the answer of a call; in `kinds` the kinds of calls by
// name; in `states` the states by name, and which state comes after an event. The machine itself is a definition.
// Definitions stand in specs/ and laws in proofs/, in reading order:
//     Answers      what a call gives: a record and a reply
//     Machine      Step, for every record and all three bytes: `step_of`
//     States       the next state, a line for each state and event: `next_state`
//     Kinds        the kinds of calls by name
//     Run          lists of calls, and what a router has written by them: `run`, `replies`, `has_written`
//     Timely       what is supposed of a list of calls that holds ticks: `Timely`
//     StepLaws     a law for each way that a call can end; the proofs of the crate steps cite some of them
//     StateLaws    Step goes by `next_state`; the proofs of the crate steps cite these too
//     MoveLaws     the ways in which a call changes the record: `Move`
//     CallLaws     bytes and the calls that they stand for
//     RunLaws      what every list of calls keeps: `Kept`; crate loop_free builds on it
//     HeldLaws     what it keeps beside: `Held`
//     OkLaws       when a call of each kind is answered ok, and the record that it gives then
//     OrderedLaws  what is ordered in a plan's record: `Ordered`; crates needs and sheet build on these three
//     TimelyLaws   ticks, and what has come of a router whose due time has come
// The code of Step is in the crate steps.
#![tactic(auto)]

pub mod kinds;
pub mod states;

use area::refusal::Refusal;

// What a call that is not refused does to the record.
#[derive(Clone, Copy, Debug, PartialEq, Eq)]
pub enum Effect {
    // It is answered "ok".
    Applied,
    // It is a message that nobody listens for.
    Ignored,
}

pub type Answer = Result<Effect, Refusal>;
