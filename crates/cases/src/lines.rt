// The lines of an input. A case is a line with a colon after its name, and a line with no colon is a comment.
ghost use Rattle.std.specs.Prelude.{◌≡◌, ◌<◌, ◌≤◌, length, IfSome};
ghost use Rattle.std.specs.Iterator.{at_most};

use crate::read;
use crate::read::Sought;

// The cases of a text, one after another: of each its name, and its words. `rest` is what is still to be read.
#[derive(Clone, Copy)]
pub struct Cases<'a> {
    pub rest: &'a [u8],
}

impl<'a> Cases<'a> {
    // All cases of the text.
    pub fn of(text: &'a [u8]) -> Cases<'a>
        ensures whole { result.rest.now ≡ text.now }
    {
        Cases { rest: text }
    }
}

impl<'a> Iterator for Cases<'a> {
    type Item = (&'a [u8], &'a [u8]);

    ghost remaining = { λ s. at_most (length s.rest.now) };

    // The next case. The comments before it are passed over.
    fn next(&mut self) -> Option<(&'a [u8], &'a [u8])> {
        while let Some((line, behind)) = first_line(self.rest) {
            self.rest = behind;
            if is_case(line) {
                return Some((name(line), words(line)));
            }
        }
        None
    }
}

// The first line of a text, without its end, and the text behind it.
fn first_line(text: &[u8]) -> Option<(&[u8], &[u8])>
    ensures shorter { IfSome result (λ p. length p.1.now < length text.now) }
{
    if text.is_empty() {
        return None;
    }
    let end = read::find(text, b'\n');
    let behind = match &text[end..] {
        [_, behind @ ..] => behind,
        [] => &[],
    };
    Some((&text[..end], behind))
}

// The place at which line k begins, counted from 0, and the length where there are fewer lines.
pub fn start(text: &[u8], k: usize) -> usize
    ensures inside { result ≤ length text.now }
{
    read::place(text, Sought::Line, k)
}

pub fn is_case(line: &[u8]) -> bool {
    line.contains(&b':')
}

// The name of a case: what stands before the first colon.
pub fn name(line: &[u8]) -> &[u8] {
    let colon = read::find(line, b':');
    &line[..colon]
}

// The words of a case: what stands after the first colon.
pub fn words(line: &[u8]) -> &[u8] {
    let colon = read::find(line, b':');
    match &line[colon..] {
        [_, words @ ..] => words,
        [] => &[],
    }
}
