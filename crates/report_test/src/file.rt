// The file of a case.
use crate::{by_words, largest, texts};
use area::limits::LARGEST;
use cases::read;

// With a word l33084 it is so many bytes of the largest file. Else it is what stands after the words: the number of
// routers, links and changes, or hexadecimal.
pub fn run(rt: &HostRuntime, words: &[u8], said: &[u8]) {
    if words.contains(&b'l') {
        by_rule(rt, words, read::value(words, b'l', 0) as usize);
    } else if said.contains(&b'n') {
        made(rt, words, said);
    } else {
        written(rt, words, said);
    }
}

fn by_rule(rt: &HostRuntime, words: &[u8], length: usize) {
    let mut file = [0u8; LARGEST + 1];
    largest::fill(&mut file);
    lend(rt, words, &file, length);
}

fn made(rt: &HostRuntime, words: &[u8], said: &[u8]) {
    let mut file = [0u8; LARGEST + 1];
    let length = by_words::fill(&mut file, said);
    lend(rt, words, &file, length);
}

fn lend(rt: &HostRuntime, words: &[u8], file: &[u8; LARGEST + 1], length: usize) {
    if let Some(all) = file.get(..length) {
        texts::print(rt, words, all);
    }
}

fn written(rt: &HostRuntime, words: &[u8], hexadecimal: &[u8]) {
    let mut file = [0u8; 8192];
    match hexadecimal::unhex(hexadecimal, &mut file) {
        Ok(length) | Err(length) => texts::print(rt, words, &file[..length]),
    }
}
