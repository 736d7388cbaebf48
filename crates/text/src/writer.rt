// A buffer, and how much of it is written. The methods are in src/lib.rt: their promises speak of this struct.
ghost use Rattle.std.specs.Prelude.{◌≤◌, length};

// A text that is being written: the first `at` bytes of a lent buffer.
#[derive(Drop)]
pub struct Writer<'a> {
    pub out: &'a mut [u8],
    pub at: usize,
    ghost inside: { at ≤ length out.now },
}
