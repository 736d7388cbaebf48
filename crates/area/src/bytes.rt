// Numbers in a list of bytes, high byte first. A byte that is not there counts as 0, so that nothing is asked of a
// caller.
//     byte     the number in one byte
//     two      the number in two bytes
ghost use Rattle.std.specs.Prelude.{◌≡◌, ◌<◌, get_or};
ghost use Rattle.area.specs.Bytes.{two};

pub fn byte(list: &[u8], at: usize) -> usize
    ensures number { result ≡ get_or list.now at 0 }
    ensures small { result < 256 }
{
    list.get(at).map_or(0, |x| usize::from(*x))
}

pub fn two(list: &[u8], at: usize) -> usize
    ensures number { result ≡ two list.now at }
    ensures small { result < 65536 }
{
    if list.len() <= at {
        return 0;
    }
    256 * byte(list, at) + byte(list, at + 1)
}
