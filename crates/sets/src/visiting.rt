// A visit to the members of a set, the lowest first.
ghost use Rattle.std.specs.Prelude.{◌≡◌};
ghost use Rattle.std.specs.Iterator.{YieldsFirst, item_count};
ghost use Rattle.area.specs.Limits.{width};
ghost use Rattle.sets.specs.Members.{members};

use crate::{lowest, rest};
use area::limits::Set;

// `left` are the members that are still to come.
#[derive(Drop)]
pub struct Members {
    pub left: Set,
}

impl Iterator for Members {
    type Item = usize;

    ghost next_gives = { YieldsFirst (λ m. members width m.left) };

    ghost remaining = { item_count (λ m. members width m.left) };

    fn next(&mut self) -> Option<usize> {
        if self.left == 0 {
            return None;
        }
        let k = lowest(self.left);
        self.left = rest(self.left);
        Some(k)
    }
}
