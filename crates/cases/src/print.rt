// Parts of the output. What cannot be written is left out.
pub fn text(rt: &HostRuntime, t: &[u8]) {
    let _ = rt.write_all(t);
}

pub fn byte(rt: &HostRuntime, b: u8) {
    text(rt, &[b]);
}

pub fn number(rt: &HostRuntime, x: u64) {
    let _ = rt.print(x);
}

// A text with a number in the place of each #.
pub fn form(rt: &HostRuntime, t: &[u8], numbers: &[u64]) {
    let mut left = numbers.iter();
    for b in t {
        if *b != b'#' {
            byte(rt, *b);
        } else if let Some(x) = left.next() {
            number(rt, *x);
        }
    }
}
