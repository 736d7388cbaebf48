// Records and answers for programs in other languages: a record field by field, and an answer as a number.
//     Places           where each field of a record lies: `record` takes the record from them, `put` puts one there
//     reply_number     the answer of a step as a number
ghost use Rattle.std.specs.Prelude.{◌≡◌};
ghost use Rattle.machine.specs.Answers.{reply_of};
ghost use Rattle.exports.specs.Fields.{reply_number};
ghost use Rattle.exports.specs.Places.{held, AreSame};

use area::limits::{Set, WIDTH};
use machine::{Answer, Effect};
use plan::Record;

// The answer of a step: 0 for ok, 255 for ignored, and the number of a refusal.
pub(crate) fn reply_number(answer: Answer) -> u8
    ensures number { result ≡ reply_number (reply_of answer) }
{
    match answer {
        Ok(Effect::Applied) => 0,
        Ok(Effect::Ignored) => 255,
        Err(why) => why.number(),
    }
}

// The places that are lent for the fields of a record.
#[derive(Drop)]
pub(crate) struct Places<'a> {
    pub routers: &'a mut u8,
    pub root: &'a mut u8,
    pub direction: &'a mut u8,
    pub ranks: &'a mut [u8; WIDTH],
    pub waiting: &'a mut [Set; WIDTH],
    pub telling: &'a mut [Set; WIDTH],
    pub due: &'a mut [Set; WIDTH],
    pub states: &'a mut [u8; WIDTH],
    pub written: &'a mut [Set; WIDTH],
    pub hold_time: &'a mut u16,
    pub step_time: &'a mut u16,
    pub clock: &'a mut u32,
    pub learn_times: &'a mut [u32; WIDTH],
}

impl Places<'_> {
    // The record whose fields are there.
    pub(crate) fn record(&self) -> Record
        ensures record { result ≡ held self.now }
    {
        Record {
            n: *self.routers,
            root: *self.root,
            direction: *self.direction,
            ranks: *self.ranks,
            waiting: *self.waiting,
            telling: *self.telling,
            due: *self.due,
            states: *self.states,
            written: *self.written,
            hold_time: *self.hold_time,
            step_time: *self.step_time,
            clock: *self.clock,
            learn_times: *self.learn_times,
        }
    }

    // Puts each field of a record into its place.
    pub(crate) fn put(&mut self, last: Record)
        ensures record { held self.new ≡ last }
        ensures same { AreSame self.old self.new }
    {
        let Record {
            n,
            root,
            direction,
            ranks,
            waiting,
            telling,
            due,
            states,
            written,
            hold_time,
            step_time,
            clock,
            learn_times,
        } = last;
        *self.routers = n;
        *self.root = root;
        *self.direction = direction;
        *self.ranks = ranks;
        *self.waiting = waiting;
        *self.telling = telling;
        *self.due = due;
        *self.states = states;
        *self.written = written;
        *self.hold_time = hold_time;
        *self.step_time = step_time;
        *self.clock = clock;
        *self.learn_times = learn_times;
    }
}
