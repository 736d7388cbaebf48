// Entries of five bytes, as links and changes are listed: a pair of routers and a metric.
//     count        how many entries a list of bytes has
//     decode       the entry at a place of the list
//     Entries      the entries of a list one after another: `for entry in Entries::of(list)`
//     check        the fault of an entry by itself; that no pair comes twice is for the crates that go over a list
// What each promises is specs/Entries.antt, and specs/Each.antt for a step of a loop. The laws of a loop are
// proofs/EachLaws.antt, and those of `Entries::of(list).all(..)` are proofs/ListLaws.antt. `bench_file` reads links by
// these functions, `changes` reads changes; both find a repeated pair by sets, and proofs/SeenLaws.antt says why.
#![tactic(auto)]

ghost use Rattle.std.specs.Prelude.{◌≡◌};
ghost use Rattle.area.specs.Refusals.{verdict_number};
ghost use Rattle.entries.specs.Entries.{entry_count, entry_of, entry_refusal};

use area::limits::ENTRY;
use area::refusal::Refusal;

#[derive(Clone, Copy)]
pub struct Entry {
    pub from: usize,
    pub to: usize,
    pub metric: u32,
}

// How many whole entries the list has.
#[tactic(auto, unfolding(crate::specs::Entries::entry_count))]
pub fn count(list: &[u8]) -> usize
    ensures answer { result ≡ entry_count list.now }
{
    list.len() / ENTRY
}

// Entry e of the list, all 0 where the list has no such entry.
#[tactic(auto, unfolding(crate::specs::Entries::entry_count, crate::specs::Entries::entry_of))]
pub fn decode(list: &[u8], e: usize) -> Entry
    ensures entry { result ≡ entry_of list.now e }
{
    if count(list) <= e {
        return Entry {
            from: 0,
            to: 0,
            metric: 0,
        };
    }
    let bytes = &list[ENTRY * e..ENTRY * e + ENTRY];
    Entry {
        from: usize::from(bytes[0]),
        to: usize::from(bytes[1]),
        metric: u32::from_be_bytes([0, bytes[2], bytes[3], bytes[4]]),
    }
}

// The entries of a list from place `next` on, one after another.
#[derive(Clone, Copy)]
pub struct Entries<'a> {
    pub list: &'a [u8],
    pub next: usize,
}

impl<'a> Entries<'a> {
    // All entries of the list.
    pub fn of(list: &'a [u8]) -> Entries<'a>
        ensures first { (result.list.now ≡ list.now) × (result.next ≡ 0) }
    {
        Entries { list, next: 0 }
    }
}

impl<'a> Iterator for Entries<'a> {
    ghost use Rattle.std.specs.Prelude.{◌-◌};
    ghost use Rattle.std.specs.Iterator.{at_most};
    ghost use Rattle.entries.specs.Each.{GivesEntry};

    type Item = Entry;

    ghost next_gives = { GivesEntry };

    ghost remaining = { λ s. at_most (entry_count s.list.now - s.next) };

    fn next(&mut self) -> Option<Entry> {
        if count(self.list) <= self.next {
            return None;
        }
        let entry = decode(self.list, self.next);
        self.next += 1;
        Some(entry)
    }
}

// The refusal of an entry by itself, in an area of n routers.
#[tactic(auto, using(crate::proofs::EntryLaws::faults))]
pub fn check(n: usize, entry: Entry) -> Result<(), Refusal>
    ensures answer { verdict_number result ≡ entry_refusal n entry }
{
    if n <= entry.from || n <= entry.to {
        return Err(Refusal::UnknownRouter);
    }
    if entry.from == entry.to {
        return Err(Refusal::SelfLink);
    }
    if entry.metric == 0 {
        return Err(Refusal::Metric);
    }
    Ok(())
}
