// A call for every prefix: a line wherever the answer, or the number of links in the metric table, is another than for
// the prefix before.
use crate::call::OLD;
use crate::show;
use area::limits::CELLS;
use area::refusal::number_of;
use cases::{LONG_TABLE, print};

// What came of a call.
#[derive(Clone, Copy, PartialEq)]
struct Outcome {
    answer: u8,
    links: u64,
}

// Prefixes of the lists. The last byte is one behind the lists of the case.
pub fn lists(rt: &HostRuntime, n: usize, identities: &[u8], lists: &[u8]) {
    prefixes(rt, lists, |part| after_call(n, identities, part));
}

// Prefixes of the table of identities.
pub fn table(rt: &HostRuntime, n: usize, identities: &[u8], lists: &[u8]) {
    prefixes(rt, identities, |part| after_call(n, part, lists));
}

// Prints the outcome for each prefix where it is another than the last.
fn prefixes<F: Fn(&[u8]) -> Outcome>(rt: &HostRuntime, bytes: &[u8], outcome: F)
    requires { F.IsAlwaysCallable outcome }
{
    let mut last = None;
    print::byte(rt, b'\n');
    // This counts bytes, from none to all: a prefix has a length, which is no place.
    for size in 0..=bytes.len() {
        let now = outcome(&bytes[..size]);
        if last != Some(now) {
            print::form(
                rt,
                b"# bytes: # with # links\n",
                &[size as u64, u64::from(now.answer), now.links],
            );
        }
        last = Some(now);
    }
}

fn after_call(n: usize, identities: &[u8], lists: &[u8]) -> Outcome {
    let mut table = [OLD; LONG_TABLE];
    let answer = isis::read(n, identities, lists, &mut table[0..CELLS]);
    Outcome {
        answer: number_of(&answer),
        links: show::count(&table),
    }
}
