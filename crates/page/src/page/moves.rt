// Entries that go from one page to another. That a page has at most 64 entries callers may take as given, since they don't see it; here a call of `len` tells it to the proof.
ghost use Rattle.std.specs.Prelude.{◌≡◌, ℕ, ◌+◌, ◌-◌, ◌≤◌, ◌++◌, take, drop, length};
ghost use Rattle.page.specs.Sizes.{page_limit};

use super::Page;
use crate::codec::Codec;

impl<C: Codec> Page<C> {
    // The first `count` entries of the page to the right come to the end of this one.
    pub fn take_from_right(&mut self, right: &mut Page<C>, count: usize)
        requires fits { length self.old ≤ page_limit → length right.old ≤ page_limit → length self.old + count ≤ page_limit }
        requires there { count ≤ length right.old }
        ensures left_len { length self.new ≡ length self.old + count }
        ensures right_len { length right.new ≡ length right.old - count }
        ensures left { self.new ≡ self.old ++ take count right.old }
        ensures right { right.new ≡ drop count right.old }
        ensures left_few { length self.new ≤ page_limit }
        ensures right_few { length right.new ≤ page_limit }
        ensures right_lent { length right.old ≤ page_limit }
    {
        let _own = self.len();
        let rest = right.split_off(count);
        self.append(right);
        *right = rest;
    }

    // The last `count` entries of the page to the left come to the front of this one.
    pub fn take_from_left(&mut self, left: &mut Page<C>, count: usize)
        requires fits { length self.old ≤ page_limit → length left.old ≤ page_limit → length self.old + count ≤ page_limit }
        requires there { count ≤ length left.old }
        ensures right_len { length self.new ≡ length self.old + count }
        ensures left_len { length left.new ≡ length left.old - count }
        ensures right { self.new ≡ drop (length left.old - count) left.old ++ self.old }
        ensures left { left.new ≡ take (length left.old - count) left.old }
        ensures right_few { length self.new ≤ page_limit }
        ensures left_few { length left.new ≤ page_limit }
        ensures left_lent { length left.old ≤ page_limit }
    {
        let _own = self.len();
        let mut moved = left.split_off(left.len() - count);
        moved.append(self);
        *self = moved;
    }
}
