// Prints what is written for the stored files of the cases of standard input, and so what the old reader says of them.
// The first lines of stdin say what a case is.
//     main      the cases of the input: the name of each is printed, and under it what its file gives
//     file      the file of a case, from its hexadecimal or by a rule
//     large     files by a rule: all links of most routers
//     output    prints what is written for a file
#![tactic(auto)]

mod file;
mod large;
mod output;

use cases::{input, lines, print};

fn main(rt: HostRuntime) {
    let mut text = [0u8; 8192];
    let length = input::standard(&rt, &mut text);
    for (name, words) in lines::Cases::of(&text[..length]) {
        print::text(&rt, name);
        print::byte(&rt, b'\n');
        file::run(&rt, words);
    }
}
