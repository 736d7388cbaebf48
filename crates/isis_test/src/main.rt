// Reads areas from IS-IS data, by the cases of standard input, and prints what is answered and what the metric table
// then holds. The first lines of stdin say what a case is.
//     main       the cases of the input: the name of each is printed, and then what its words say
//     bytes      from the words of a case to bytes
//     call       the call that a case says
//     show       what is shown of a metric table
//     cut        a call for every prefix of the lists or of the table of identities
//     items      the entries of one list
//     capture    the data of a real implementation, and the links that are expected of it
#![tactic(auto)]

mod bytes;
mod call;
mod capture;
mod cut;
mod items;
mod show;

use cases::{input, lines, print};

fn main(rt: HostRuntime) {
    let mut text = [0u8; 16384];
    let length = input::standard(&rt, &mut text);
    for (name, words) in lines::Cases::of(&text[..length]) {
        print::text(&rt, name);
        call::run(&rt, name, words);
    }
}
