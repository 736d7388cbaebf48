// Runs Paths on the cases of standard input, and prints what it answers. The first lines of stdin say what a case is.
//     main    the cases of the input: the name of each is printed, and then it is called
//     call    the call that the words of a case say
//     show    what is shown of them after it
#![tactic(auto)]

mod call;
mod show;

use cases::{input, lines, print};

fn main(rt: HostRuntime) {
    let mut text = [0u8; 16384];
    let length = input::standard(&rt, &mut text);
    for (name, words) in lines::Cases::of(&text[..length]) {
        print::text(&rt, name);
        call::run(&rt, words);
    }
}
