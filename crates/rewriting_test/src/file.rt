// The file of a case.
use crate::{large, output};

// The words `half` and `full` stand for files by a rule: no digit of a file is an h or an l.
pub fn run(rt: &HostRuntime, words: &[u8]) {
    if words.contains(&b'h') {
        large::half(rt);
    } else if words.contains(&b'l') {
        large::full(rt);
    } else {
        written(rt, words);
    }
}

fn written(rt: &HostRuntime, hexadecimal: &[u8]) {
    let mut file = [0u8; 1024];
    let (Ok(length) | Err(length)) = hexadecimal::unhex(hexadecimal, &mut file);
    output::print(rt, &file[..length]);
}
