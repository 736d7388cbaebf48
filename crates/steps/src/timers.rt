// The rank timers (02, No. 10): the times of a router, whether it must still wait, and the tick of the clock. The sums
// are made in 64 bits, in which they never wrap.
ghost use Rattle.std.specs.Prelude.{◌≡◌, ◌+◌, ◌*◌, eqb};
ghost use Rattle.area.specs.Limits.{last_time};
ghost use Rattle.area.specs.Tests.{pick};
ghost use Rattle.plan.specs.declared.Record.{Record};
ghost use Rattle.machine.specs.Answers.{reply_of, gives};
ghost use Rattle.machine.specs.Machine.{must_wait, tick};
ghost use Rattle.steps.specs.Lent.{AreSame, put};

use crate::lent::Lent;
use area::limits::{LAST_TIME, Set};
use area::refusal::Refusal;
use machine::{Answer, Effect};

// Until when a router holds that learned of the change at this time.
pub fn held_until(learn_time: u32, hold_time: u16) -> u64
    ensures { result ≡ learn_time + hold_time }
{
    learn_time as u64 + hold_time as u64
}

// From when on a router of this rank waits for no other.
pub fn due_time(learn_time: u32, hold_time: u16, rank: u8, step_time: u16) -> u64
    ensures { result ≡ learn_time + hold_time + rank * step_time }
{
    held_until(learn_time, hold_time) + rank as u64 * step_time as u64
}

// Must a router that waits for these routers go on waiting?
#[tactic(auto, unfolding(machine::specs::Machine::must_wait))]
pub(crate) fn must_wait(waits_for: Set, clock: u32, due: u64) -> bool
    ensures { result ≡ must_wait waits_for clock due }
{
    waits_for != 0 && (clock as u64) < due
}

impl Lent<'_> {
    // The clock goes on by one.
    #[tactic(auto, unfolding(machine::specs::Machine::tick))]
    pub(crate) fn tick(&mut self) -> Answer
        ensures outcome { (x : Record) →
            gives (put x self.new) (reply_of result) ≡ tick (put x self.old) }
        ensures same { AreSame self.old self.new }
    {
        *self.clock = next_time(*self.clock).ok_or(Refusal::ClockEnd)?;
        Ok(Effect::Applied)
    }
}

// The time after this one, or none after the last that the clock can show.
fn next_time(clock: u32) -> Option<u32>
    ensures { result ≡ pick (eqb clock last_time) None (Some (clock + 1)) }
{
    if clock == LAST_TIME {
        None
    } else {
        Some(clock + 1)
    }
}
