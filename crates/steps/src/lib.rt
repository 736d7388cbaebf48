// The steps of an ordered update (01, "The steps"): a machine over the record that a plan hands back.
// The way of a step, from its bytes to the record:
//     run, Machine::step       a list of steps as bytes, and one step, on a record by value
//     apply                    one step on a lent record, in place: it lends the record's parts to `Lent::step`
//     lent                     one step over the parts of a record: the refusals that every kind has, and then the call
//     moves, messages, timers  the call of each kind: learn, release, write and finish of one router, deliver between
//                              two, and tick. Here a router's entries are read and written, by its index
// The machine is defined in the crate machine, specs/Machine.antt; the record that lent parts make is specs/Lent.antt.
// The proofs of the calls open the machine's definitions; that of `Lent::step` has a law for each way that it can end,
// in proofs/Ends.antt.
#![tactic(auto)]

pub mod lent;
mod messages;
mod moves;
pub mod timers;

ghost use Rattle.std.specs.Prelude.{◌≡◌};
ghost use Rattle.machine.specs.Answers.{reply_of, gives};
ghost use Rattle.machine.specs.Machine.{learn_kind, release_kind, write_kind, finish_kind, deliver_kind, tick_kind};
ghost use Rattle.machine.specs.Machine.{step_of};
ghost use Rattle.machine.specs.Run.{run, calls_of};
ghost use Rattle.steps.specs.Outcomes.{outcome_of};

use lent::Lent;
use machine::Answer;
use machine::kinds::Kind;
use plan::Record;

// What a call hands back: the record, with the answer. A call that is refused or ignored leaves the record as it was.
#[derive(Clone, Copy)]
pub struct Stepped {
    pub next: Record,
    pub answer: Answer,
}

// A record that takes steps. Every call checks the record and the routers that it is handed.
#[derive(Clone, Copy)]
pub struct Machine {
    pub now: Record,
}

impl Machine {
    // A router learns of the change.
    pub fn learn(self, router: u8) -> Stepped
        ensures outcome { outcome_of result ≡ step_of self.now learn_kind router 0 }
    {
        self.step(Kind::Learn.number(), router, 0)
    }

    // The hold-down of a router is over.
    pub fn release(self, router: u8) -> Stepped
        ensures outcome { outcome_of result ≡ step_of self.now release_kind router 0 }
    {
        self.step(Kind::Release.number(), router, 0)
    }

    // A router writes its new next hops to a destination.
    pub fn write(self, router: u8, destination: u8) -> Stepped
        ensures outcome { outcome_of result ≡ step_of self.now write_kind router destination }
    {
        self.step(Kind::Write.number(), router, destination)
    }

    // A router has written all that is due, and is done.
    pub fn finish(self, router: u8) -> Stepped
        ensures outcome { outcome_of result ≡ step_of self.now finish_kind router 0 }
    {
        self.step(Kind::Finish.number(), router, 0)
    }

    // The message that one router is done arrives at another.
    pub fn deliver(self, from: u8, to: u8) -> Stepped
        ensures outcome { outcome_of result ≡ step_of self.now deliver_kind from to }
    {
        self.step(Kind::Deliver.number(), from, to)
    }

    // The clock goes on.
    pub fn tick(self) -> Stepped
        ensures outcome { outcome_of result ≡ step_of self.now tick_kind 0 0 }
    {
        self.step(Kind::Tick.number(), 0, 0)
    }

    // One step, by its kind.
    pub fn step(self, kind: u8, a: u8, b: u8) -> Stepped
        ensures outcome { outcome_of result ≡ step_of self.now kind a b }
    {
        let mut next = self.now;
        let answer = apply(&mut next, kind, a, b);
        Stepped { next, answer }
    }
}

// One step of a lent record, by its kind: the record is left as the machine hands it back.
fn apply(bench: &mut Record, kind: u8, a: u8, b: u8) -> Answer
    ensures outcome { gives bench.new (reply_of result) ≡ step_of bench.old kind a b }
{
    let mut lent = Lent {
        n: bench.n,
        ranks: &bench.ranks,
        waiting: &mut bench.waiting,
        telling: &bench.telling,
        due: &bench.due,
        states: &mut bench.states,
        written: &mut bench.written,
        hold_time: bench.hold_time,
        step_time: bench.step_time,
        clock: &mut bench.clock,
        learn_times: &mut bench.learn_times,
    };
    lent.step(kind, a, b)
}

// The last record, after the steps that the bytes stand for, three bytes each. One or two bytes at the end are no step.
pub fn run(first: Record, bytes: &[u8]) -> Record
    ensures last { result ≡ run first (calls_of bytes.now) }
{
    let mut last = first;
    let mut left = bytes;
    while let [kind, a, b, rest @ ..] = left {
        let _ = apply(&mut last, *kind, *a, *b);
        left = rest;
    }
    last
}
