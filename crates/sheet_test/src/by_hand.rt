// Records made by hand.
ghost use Rattle.std.specs.Prelude.{◌<◌};

use area::limits::WIDTH;
use cases::read;
use plan::Record;

// A record of n routers with the waiting sets that the words say, in which all else is 0.
pub(crate) fn record(n: u8, words: &[u8]) -> Record {
    let mut r = plan::blank();
    r.n = n;
    // By the numbers of the text: a word has two of them.
    for k in 0..read::MOST {
        r = with_word(r, words, k);
    }
    r
}

// The word whose first number is number k.
fn with_word(mut r: Record, words: &[u8], k: usize) -> Record
    requires { k < 200 }
{
    let i = read::number(words, k) as usize;
    if read::mark(words, k) == b'w' && i < WIDTH {
        r.waiting[i] = read::number(words, k + 1);
    }
    r
}
