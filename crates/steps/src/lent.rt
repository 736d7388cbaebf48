// Step over a record that is lent by its parts: all that a call reads of a record, and all that it changes. A caller
// that holds the parts of a record apart lends them where they lie, so no record is copied.
//     step                   the refusals that come first, then the call
//     is_record, are_known   what is tested first
//     router                 the index of a router of the area
// The record that the parts make, of which the calls promise, is `put` of specs/Lent.antt.
ghost use Rattle.std.specs.Prelude.{◌≡◌, ◌<◌, ◌≤◌, leb, get_or, IfOk, IfErr};
ghost use Rattle.area.specs.Limits.{width};
ghost use Rattle.area.specs.Tests.{all};
ghost use Rattle.area.specs.Refusals.{unknown_router, refusal_number};
ghost use Rattle.plan.specs.declared.Record.{Record};
ghost use Rattle.machine.specs.Answers.{reply_of, gives};
ghost use Rattle.machine.specs.Machine.{done, is_sound, step_of};
ghost use Rattle.steps.specs.Lent.{AreSame, put};

use area::limits::{Set, WIDTH};
use area::refusal::Refusal;
use machine::Answer;
use machine::kinds::Kind;
use machine::states::State;

// The parts of a record that a call reads, by their names there. A call changes those that are lent to be written.
#[derive(Drop)]
pub struct Lent<'a> {
    pub n: u8,
    pub ranks: &'a [u8; WIDTH],
    pub waiting: &'a mut [Set; WIDTH],
    pub telling: &'a [Set; WIDTH],
    pub due: &'a [Set; WIDTH],
    pub states: &'a mut [u8; WIDTH],
    pub written: &'a mut [Set; WIDTH],
    pub hold_time: u16,
    pub step_time: u16,
    pub clock: &'a mut u32,
    pub learn_times: &'a mut [u32; WIDTH],
}

impl Lent<'_> {
    // One step, by its kind: first the tests of the record, of the kind and of the routers, then the call.
    #[tactic(auto, using(crate::proofs::Ends::ends))]
    pub fn step(&mut self, kind: u8, a: u8, b: u8) -> Answer
        ensures outcome { (x : Record) →
            gives (put x self.new) (reply_of result) ≡ step_of (put x self.old) kind a b }
        ensures same { AreSame self.old self.new }
    {
        if !self.is_record() {
            return Err(Refusal::Record);
        }
        match Kind::try_from(kind)? {
            Kind::Learn => {
                let i = self.router(a)?;
                self.learn(i)
            }
            Kind::Release => {
                let i = self.router(a)?;
                self.release(i)
            }
            Kind::Write => {
                let i = self.router(a)?;
                let d = self.router(b)?;
                self.write(i, d)
            }
            Kind::Finish => {
                let i = self.router(a)?;
                self.finish(i)
            }
            Kind::Deliver => {
                let i = self.router(a)?;
                let j = self.router(b)?;
                self.deliver(i, j)
            }
            Kind::Tick => self.tick(),
        }
    }

    // The index of a router, or that the area has no such router.
    fn router(&self, a: u8) -> Result<usize, Refusal>
        ensures inside { IfOk result (λ i. (i ≡ a) × (a < self.now.n)) }
        ensures outside { IfErr result (λ why. (refusal_number why ≡ unknown_router) × (self.now.n ≤ a)) }
    {
        if a < self.n {
            Ok(a as usize)
        } else {
            Err(Refusal::UnknownRouter)
        }
    }

    // Is n a number of routers, and is every state one of the four?
    #[tactic(auto, unfolding(machine::specs::Machine::is_sound, area::specs::Sizes::is_router_count))]
    fn is_record(&self) -> bool
        ensures { result ≡ is_sound self.now.n self.now.states.now }
    {
        let n = self.n as usize;
        n >= 1 && n <= WIDTH && are_known(self.states)
    }
}

// Is every state one of the four? All of them are where the largest is.
fn are_known(states: &[u8; WIDTH]) -> bool
    ensures { result ≡ all width (λ i. leb (get_or states.now i 0) done) }
{
    let mut largest = 0;
    for state in states {
        largest = largest.max(*state);
    }
    largest <= State::Done as u8
}
