// Prints the rehearsals of the files of the cases of standard input, and of some the routes, the running sheet or what
// is unfinished. The first lines of stdin say what a case is.
//     main        the cases of the input: the name of each is printed, and under it what its file gives
//     file        the file of a case, from its hexadecimal, from words, or the largest one
//     by_words    a file from words
//     largest     the largest file, by a rule
//     texts       the text of a file
//     summary     prints a text, or of a long one some lines
#![tactic(auto)]

mod by_words;
mod file;
mod largest;
mod summary;
mod texts;

ghost use Rattle.std.specs.Prelude.{◌≤◌, length};

use cases::{input, lines, print};

fn main(rt: HostRuntime) {
    let mut text = [0u8; 32768];
    let length = input::standard(&rt, &mut text);
    for (name, words) in lines::Cases::of(&text[..length]) {
        print::text(&rt, name);
        print::byte(&rt, b'\n');
        parts(&rt, words);
    }
}

// The words, and what says the file.
fn parts(rt: &HostRuntime, case: &[u8]) {
    let from = end_of_words(case);
    file::run(rt, &case[0..from], &case[from..]);
}

// The words end with an equals sign, and there may be none.
fn end_of_words(case: &[u8]) -> usize
    ensures { result ≤ length case.now }
{
    let sign = case.iter().position(|b| *b == b'=');
    sign.map_or(0, |at| at + 1)
}
