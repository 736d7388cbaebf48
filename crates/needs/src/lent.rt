// What a change needs, and what is missing of it, by the parts of a record that say so. Tables may have any length: an
// entry that one does not have counts as 0.
ghost use Rattle.std.specs.Prelude.{ℕ, ◌≡◌, ◌*◌, ◌≤◌};
ghost use Rattle.area.specs.Limits.{width};
ghost use Rattle.sets.specs.Counts.{total};
ghost use Rattle.plan.specs.declared.Record.{Record};
ghost use Rattle.machine.specs.Machine.{over};
ghost use Rattle.needs.specs.Needs.{needs, missing};

use area::bytes::byte;
use area::limits::Set;
use machine::states::State;
use sets::{entry, size, without};

// Three calls for each router, and one for each member of the due and the waiting sets.
pub fn needs(n: u8, waiting: &[Set], due: &[Set]) -> usize
    ensures count { (x : Record) →
        result ≡ needs (over x n waiting.now x.telling due.now x.states x.written) }
{
    let due_sizes = total(n, |x| size(entry(due, x)));
    let waiting_sizes = total(n, |x| size(entry(waiting, x)));
    3 * n as usize + due_sizes + waiting_sizes
}

// The states that the routers have before them, and the members of the unwritten and the waiting sets.
pub fn missing(n: u8, waiting: &[Set], due: &[Set], states: &[u8], written: &[Set]) -> usize
    ensures count { (x : Record) →
        let now = over x n waiting.now x.telling due.now
        states.now written.now in
        result ≡ missing now }
{
    let done = State::Done as usize;
    let states_left = total(n, |x| done.saturating_sub(byte(states, x)));
    let unwritten_sizes = total(n, |x| size(without(entry(due, x), entry(written, x))));
    let waiting_sizes = total(n, |x| size(entry(waiting, x)));
    states_left + unwritten_sizes + waiting_sizes
}

// The sum of what each of n routers counts, which is at most what a set can hold.
fn total<F: Fn(usize) -> usize>(n: u8, of: F) -> usize
    requires callable { F.IsAlwaysCallable of }
    requires most { (x y : ℕ) → F.post of x y → y ≤ width }
    ensures upper_bound { result ≤ width * n }
    ensures count { (f : ℕ → ℕ) → ((x y : ℕ) → F.post of x y → y ≡ f x) → result ≡ total n f }
{
    let mut count = 0;
    // By number: a table that `of` reads may be shorter than n.
    for x in 0..n as usize {
        count += of(x);
    }
    count
}
