// The moves of one router. Each is the call of its kind: first the refusals in their order, of which 23 is that the
// event leads nowhere from the router's state (`State::after`); then its entry is written. The record of which
// they promise is `put` of specs/Lent.antt.
ghost use Rattle.std.specs.Prelude.{◌≡◌, ◌<◌, IfOk, IfErr};
ghost use Rattle.area.specs.Limits.{width};
ghost use Rattle.area.specs.Refusals.{wrong_state, refusal_number};
ghost use Rattle.plan.specs.declared.Record.{Record};
ghost use Rattle.machine.specs.Answers.{reply_of, gives};
ghost use Rattle.machine.specs.Machine.{learn, release, write, finish};
ghost use Rattle.machine.specs.States.{named, next_state};
ghost use Rattle.steps.specs.Lent.{AreSame, put};

use crate::lent::Lent;
use crate::timers::{due_time, held_until, must_wait};
use area::refusal::Refusal;
use machine::states::{Event, State};
use machine::{Answer, Effect};
use sets::{add, is_subset, member};

impl Lent<'_> {
    // A router learns of the change.
    #[tactic(auto, unfolding(machine::specs::Machine::learn))]
    pub(crate) fn learn(&mut self, i: usize) -> Answer
        requires { i < width }
        ensures outcome { (x : Record) →
            gives (put x self.new) (reply_of result) ≡ learn (put x self.old) i }
        ensures same { AreSame self.old self.new }
    {
        let holding = next(self.states[i], Event::Learn)?;
        self.states[i] = holding.number();
        self.learn_times[i] = *self.clock;
        Ok(Effect::Applied)
    }

    // The hold-down of a router is over.
    #[tactic(auto, unfolding(machine::specs::Machine::release))]
    pub(crate) fn release(&mut self, i: usize) -> Answer
        requires { i < width }
        ensures outcome { (x : Record) →
            gives (put x self.new) (reply_of result) ≡ release (put x self.old) i }
        ensures same { AreSame self.old self.new }
    {
        let ongoing = next(self.states[i], Event::Release)?;
        let now = *self.clock as u64;
        if now < held_until(self.learn_times[i], self.hold_time) {
            return Err(Refusal::TooEarly);
        }
        self.states[i] = ongoing.number();
        Ok(Effect::Applied)
    }

    // A router writes its new next hops to destination d.
    #[tactic(auto, unfolding(machine::specs::Machine::write, machine::specs::Machine::ready))]
    pub(crate) fn write(&mut self, i: usize, d: usize) -> Answer
        requires { i < width }
        ensures outcome { (x : Record) →
            gives (put x self.new) (reply_of result) ≡ write (put x self.old) i d }
        ensures same { AreSame self.old self.new }
    {
        // The next state is ongoing again, so it need not be stored.
        next(self.states[i], Event::Write)?;
        let due_at = due_time(
            self.learn_times[i],
            self.hold_time,
            self.ranks[i],
            self.step_time,
        );
        if must_wait(self.waiting[i], *self.clock, due_at) {
            return Err(Refusal::Waiting);
        }
        let so_far = self.written[i];
        if !member(self.due[i], d) || member(so_far, d) {
            return Err(Refusal::NotDue);
        }
        self.written[i] = add(so_far, d);
        Ok(Effect::Applied)
    }

    // A router has written all that is due, and is done.
    #[tactic(auto, unfolding(machine::specs::Machine::finish, machine::specs::Machine::ready))]
    pub(crate) fn finish(&mut self, i: usize) -> Answer
        requires { i < width }
        ensures outcome { (x : Record) →
            gives (put x self.new) (reply_of result) ≡ finish (put x self.old) i }
        ensures same { AreSame self.old self.new }
    {
        let done = next(self.states[i], Event::Finish)?;
        let last_wait = due_time(
            self.learn_times[i],
            self.hold_time,
            self.ranks[i],
            self.step_time,
        );
        if must_wait(self.waiting[i], *self.clock, last_wait) {
            return Err(Refusal::Waiting);
        }
        if !is_subset(self.due[i], self.written[i]) {
            return Err(Refusal::Unwritten);
        }
        self.states[i] = done.number();
        Ok(Effect::Applied)
    }
}

// The state after an event, or the refusal where the event has no place.
fn next(state: u8, event: Event) -> Result<State, Refusal>
    ensures to { IfOk result (λ to. next_state (named state) event ≡ Some to) }
    ensures nowhere { IfErr result (λ why. (next_state (named state) event ≡ None)
        × (refusal_number why ≡ wrong_state)) }
{
    State::from(state).after(event).ok_or(Refusal::State)
}
