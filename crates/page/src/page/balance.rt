// Entries shared out between two neighbours. That a page has at most 64 entries callers may take as given, since they don't see it; here a call of `len` tells it to the proof.
ghost use Rattle.std.specs.Prelude.{◌≡◌, ℕ, ◌+◌, ◌<◌, ◌≤◌, ◌++◌, length, MatchOption};
ghost use Rattle.page.specs.Balance.{Merged, EvenedFew};
ghost use Rattle.page.specs.Sizes.{block_room, page_limit};

use super::Page;
use crate::codec::Codec;

impl<C: Codec> Page<C> {
    // Entries move between two neighbours until this one has `count`.
    pub fn share(&mut self, right: &mut Page<C>, count: usize)
        requires left { count ≤ page_limit }
        requires right { length self.old ≤ page_limit → length right.old ≤ page_limit → length self.old + length right.old ≤ count + page_limit }
        requires there { count ≤ length self.old + length right.old }
        ensures same { self.new ++ right.new ≡ self.old ++ right.old }
        ensures left_len { length self.new ≡ count }
        ensures total { length self.new + length right.new ≡ length self.old + length right.old }
        ensures right_few { length right.new ≤ page_limit }
        ensures left_lent { length self.old ≤ page_limit }
        ensures right_lent { length right.old ≤ page_limit }
    {
        let _right = right.len();
        if self.len() < count {
            self.take_from_right(right, count - self.len());
            return;
        }
        right.take_from_left(self, self.len() - count);
    }

    // The entries of both come into this page, or else evenly into both: the right one, where there still is one.
    pub fn even_out(&mut self, mut right: Page<C>, cap: usize) -> Option<Page<C>>
        requires { «cap» ≤ block_room }
        ensures { MatchOption result (Merged «cap» (self.old ++ right) self.new) (λ r. EvenedFew «cap» (self.old ++ right) self.new r) }
    {
        let total = self.len() + right.len();
        if total <= cap {
            self.append(&right);
            return None;
        }
        self.share(&mut right, total / 2);
        Some(right)
    }
}
