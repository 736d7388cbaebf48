// A message between two routers. The record of which `deliver` promises is `put` of specs/Lent.antt.
ghost use Rattle.std.specs.Prelude.{◌≡◌, ◌<◌};
ghost use Rattle.area.specs.Limits.{width};
ghost use Rattle.plan.specs.declared.Record.{Record};
ghost use Rattle.machine.specs.Answers.{reply_of, gives};
ghost use Rattle.machine.specs.Machine.{deliver, listens};
ghost use Rattle.steps.specs.Lent.{AreSame, put};

use crate::lent::Lent;
use area::limits::Set;
use area::refusal::Refusal;
use machine::states::State;
use machine::{Answer, Effect};
use sets::{member, remove};

impl Lent<'_> {
    // The message that the sender is done arrives at the receiver.
    #[tactic(auto, unfolding(machine::specs::Machine::deliver))]
    pub(crate) fn deliver(&mut self, sender: usize, receiver: usize) -> Answer
        requires { (sender < width) × (receiver < width) }
        ensures outcome { (x : Record) →
            gives (put x self.new) (reply_of result) ≡ deliver (put x self.old) sender receiver }
        ensures same { AreSame self.old self.new }
    {
        if self.states[sender] != State::Done.number() {
            return Err(Refusal::NotDone);
        }
        if !member(self.telling[sender], receiver) {
            return Err(Refusal::NotTold);
        }
        let waits_for = self.waiting[receiver];
        if !listens(self.states[receiver], waits_for, sender) {
            return Ok(Effect::Ignored);
        }
        self.waiting[receiver] = remove(waits_for, sender);
        Ok(Effect::Applied)
    }
}

// Does a router in this state, which waits for these routers, listen for the message of the sender?
#[tactic(auto, unfolding(machine::specs::Machine::listens))]
fn listens(state: u8, waits: Set, sender: usize) -> bool
    ensures { result ≡ listens state waits sender }
{
    matches!(State::from(state), State::Holding | State::Ongoing) && member(waits, sender)
}
