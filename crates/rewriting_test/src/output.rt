// What is written for a file: the line of a refusal, or bytes, which are printed in hexadecimal.
use cases::print;

const DIGITS: [u8; 16] = *b"0123456789ABCDEF";

// What is written for the file; and where that is a file, what is written for this one.
pub fn print(rt: &HostRuntime, file: &[u8]) {
    let mut out = [0u8; 1024];
    let length = rewriting::rewrite(file, &mut out);
    show(rt, &out[..length]);
    if !is_line(&out[..length]) {
        again(rt, &out[..length]);
    }
}

// What is written for a file that has been rewritten.
pub fn again(rt: &HostRuntime, file: &[u8]) {
    let mut out = [0u8; 1024];
    let length = rewriting::rewrite(file, &mut out);
    print::text(rt, b"again ");
    show(rt, &out[..length]);
}

fn show(rt: &HostRuntime, written: &[u8]) {
    if is_line(written) {
        print::text(rt, written);
    } else {
        hexadecimal(rt, written);
        print::byte(rt, b'\n');
    }
}

// No file begins with the letter r: it would have 114 routers.
fn is_line(written: &[u8]) -> bool {
    written.starts_with(b"r")
}

fn hexadecimal(rt: &HostRuntime, bytes: &[u8]) {
    for b in bytes {
        print::byte(rt, DIGITS[usize::from(b / 16)]);
        print::byte(rt, DIGITS[usize::from(b % 16)]);
    }
}
