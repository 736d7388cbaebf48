// Makes running sheets by the cases of standard input, and prints them. The first lines of stdin say what a case is.
//     main       the cases of the input: the name of each is printed, and then it is called
//     call       the call that the words of a case say, for a change or for a record made by hand
//     by_hand    such a record
//     show       what is shown of a sheet
#![tactic(auto)]

mod by_hand;
mod call;
mod show;

use cases::{input, lines, print};

fn main(rt: HostRuntime) {
    let mut text = [0u8; 16384];
    let length = input::standard(&rt, &mut text);
    for (name, words) in lines::Cases::of(&text[..length]) {
        print::text(&rt, name);
        print::byte(&rt, b':');
        call::run(&rt, words);
    }
}
