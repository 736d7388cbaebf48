// How many calls a change takes until all routers are done and no message is missing, counted by the answers "ok"
// (02, No. 8). Ticks are not counted (02, No. 10).
//     needs        in all, by the fresh record
//     missing      how many are still to come, by a record on the way
//     lent         the same by the parts of a record that they read
// Both are definitions in specs/Needs.antt. proofs/CountedLaws.antt has the one invariant of every list of calls,
// proofs/ProgressLaws.antt why none gets stuck, and proofs/NeedsLaws.antt the promises themselves.
#![tactic(auto)]

pub mod lent;

ghost use Rattle.std.specs.Prelude.{◌≡◌};
ghost use Rattle.needs.specs.Needs.{needs, missing};

use plan::Record;

// How many calls are answered "ok" until all routers are done and every waiting set is empty.
pub fn needs(fresh: Record) -> usize
    ensures count { result ≡ needs fresh }
{
    lent::needs(fresh.n, &fresh.waiting, &fresh.due)
}

// How many of these are still to come.
pub fn missing(now: Record) -> usize
    ensures count { result ≡ missing now }
{
    lent::missing(now.n, &now.waiting, &now.due, &now.states, &now.written)
}
