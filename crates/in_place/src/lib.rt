// The bench's single record: one call changes it in place, with the effect of the machine's step.
//     apply        the step on a lent record
//     applied      the same for callers that hold the record by value
// Both contracts are the machine's `step_of` (crate machine, specs/Machine.antt). The toolchain proves both without a
// proof file.
#![tactic(auto)]

ghost use Rattle.std.specs.Prelude.{◌≡◌};
ghost use Rattle.machine.specs.Answers.{reply_of, gives};
ghost use Rattle.machine.specs.Machine.{step_of};
ghost use Rattle.steps.specs.Outcomes.{outcome_of};

use machine::Answer;
use plan::Record;
use steps::{Machine, Stepped};

// Takes a step of the lent record, leaves in it the record that the machine hands back, and gives the answer: a thin
// call over the step by value, as 01 asks.
pub fn apply(bench: &mut Record, kind: u8, a: u8, b: u8) -> Answer
    ensures outcome { gives bench.new (reply_of result) ≡ step_of bench.old kind a b }
{
    let stepped = Machine { now: *bench }.step(kind, a, b);
    *bench = stepped.next;
    stepped.answer
}

// The step in place for callers that hold the record by value: the local is lent to `apply`, and handed back as that
// left it.
pub fn applied(first: Record, kind: u8, a: u8, b: u8) -> Stepped
    ensures outcome { outcome_of result ≡ step_of first kind a b }
{
    let mut bench = first;
    let answer = apply(&mut bench, kind, a, b);
    Stepped {
        next: bench,
        answer,
    }
}
