// Takes records through steps, by the cases of standard input, and prints the answers and the records. The first lines
// of stdin say what a case is.
//     main       the cases of the input, one after another
//     records    the first record of a case: Plan's, one made by hand, or the one that the case before has left
//     planning   Plan's record, and its sets of four
//     taking     takes the steps of a case, one by one and then all at once
//     call       the numbers of a step
//     others     other ways to take a step, which must not differ
//     compare    in how many entries two records differ
//     show       parts of a line of the output
//     pointers   where packets go after the last step
//     table      the table of states and events, which comes last
#![tactic(auto)]

mod call;
mod compare;
mod others;
mod planning;
mod pointers;
mod records;
mod show;
mod table;
mod taking;

use cases::{input, lines, print};
use plan::Record;

fn main(rt: HostRuntime) {
    let mut text = [0u8; 32768];
    // A case may go on from the record that the one before has left.
    let mut left = records::blank(0, 0, 0);
    let length = input::standard(&rt, &mut text);
    for (name, words) in lines::Cases::of(&text[..length]) {
        print::text(&rt, name);
        print::byte(&rt, b':');
        left = parts(&rt, left, words);
    }
    table::show(&rt);
}

// The words of the record, and after a colon those of the steps.
fn parts(rt: &HostRuntime, left: Record, words: &[u8]) -> Record {
    let first = records::with_words(left, lines::name(words));
    let last = taking::steps(rt, first, lines::words(words));
    pointers::show(rt, last, lines::name(words));
    last
}
