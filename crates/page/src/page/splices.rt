// Runs of entries that come, go and move within a page. That a page has at most 64 entries callers may take as given, since they don't see it; here a call of `len` tells it to the proof.
ghost use Rattle.std.specs.Prelude.{◌≡◌, ℕ, ◌+◌, ◌-◌, ◌<◌, ◌≤◌, T, List, [], ◌∷◌, ◌++◌, take, drop, slice_index_or, length};
ghost use Rattle.std.specs.List.{insert, remove, between};
ghost use Rattle.page.specs.Sizes.{page_limit};

use super::Page;
use crate::codec::Codec;

impl<C: Codec> Page<C> {
    // The entries of another page from `from` to before `to`, behind one's own.
    pub fn extend(&mut self, other: &Page<C>, from: usize, to: usize)
        requires forward { from ≤ to }
        requires within { to ≤ length other.now }
        requires fits { length self.old ≤ page_limit → length other.now ≤ page_limit → length self.old + (to - from) ≤ page_limit }
        ensures len { length self.new ≡ length self.old + (to - from) }
        ensures after { self.new ≡ self.old ++ between from to other.now }
        ensures few { length self.new ≤ page_limit }
        ensures other_few { length other.now ≤ page_limit }
    {
        let _own = self.len();
        let _other = other.len();
        for i in from..to {
            self.push(other.get(i));
        }
    }

    // The entries of another page, behind one's own.
    pub fn append(&mut self, other: &Page<C>)
        requires { length self.old ≤ page_limit → length other.now ≤ page_limit → length self.old + length other.now ≤ page_limit }
        ensures len { length self.new ≡ length self.old + length other.now }
        ensures after { self.new ≡ self.old ++ other.now }
        ensures few { length self.new ≤ page_limit }
    {
        self.extend(other, 0, other.len());
    }

    // A copy of the entries from `at` on.
    fn tail(&self, at: usize) -> Page<C>
        requires { at ≤ length self.now }
        ensures len { length result ≡ length self.now - at }
        ensures after { result ≡ drop at self.now }
        ensures few { length self.now ≤ page_limit }
    {
        let mut upper = Page::new();
        upper.extend(self, at, self.len);
        upper
    }

    // The entries from `at` on, which leave this page.
    pub fn split_off(&mut self, at: usize) -> Page<C>
        requires { at ≤ length self.old }
        ensures len { length self.new ≡ at }
        ensures rest { length result ≡ length self.old - at }
        ensures stay { self.new ≡ take at self.old }
        ensures leave { result ≡ drop at self.old }
        ensures few { length self.new ≤ page_limit }
        ensures rest_few { length result ≤ page_limit }
        ensures lent { length self.old ≤ page_limit }
    {
        let upper = self.tail(at);
        self.truncate(at);
        upper
    }

    // An entry and then those of another page, behind one's own.
    pub fn push_and_append(&mut self, x: C::Item, other: &Page<C>)
        requires room { length self.old ≤ page_limit → length other.now ≤ page_limit → length self.old + length other.now < page_limit }
        requires valid { T (C.Codec.valid x) }
        ensures len { length self.new ≡ length self.old + 1 + length other.now }
        ensures after { self.new ≡ self.old ++ (x ∷ other.now) }
        ensures few { length self.new ≤ page_limit }
    {
        let _own = self.len();
        let _other = other.len();
        self.push(x);
        self.append(other);
    }

    // The entries from `at` on move one up, and x stands there.
    pub fn insert(&mut self, at: usize, x: C::Item)
        requires there { at ≤ length self.old }
        requires room { length self.old ≤ page_limit → length self.old < page_limit }
        requires valid { T (C.Codec.valid x) }
        ensures len { length self.new ≡ length self.old + 1 }
        ensures after { self.new ≡ insert self.old at x }
        ensures few { length self.new ≤ page_limit }
    {
        let upper = self.split_off(at);
        self.push_and_append(x, &upper);
    }

    // Takes out the `count` entries from `at` on.
    pub fn cut_out(&mut self, at: usize, count: usize)
        requires { at + count ≤ length self.old }
        ensures len { length self.new ≡ length self.old - count }
        ensures after { self.new ≡ take at self.old ++ drop (at + count) self.old }
        ensures few { length self.new ≤ page_limit }
        ensures lent { length self.old ≤ page_limit }
    {
        // a page has at most 64 entries, which the proof learns here
        let _few = self.len();
        let upper = self.tail(at + count);
        self.truncate(at);
        self.append(&upper);
    }

    // Takes out the entry at `at`, and says what it was.
    pub fn remove(&mut self, at: usize) -> C::Item
        requires { at < length self.old }
        ensures value { (d : C.Item) → result ≡ slice_index_or self.old at d }
        ensures valid { T (C.Codec.valid result) }
        ensures len { length self.new ≡ length self.old - 1 }
        ensures after { self.new ≡ remove self.old at }
        ensures few { length self.new ≤ page_limit }
        ensures lent { length self.old ≤ page_limit }
    {
        let x = self.get(at);
        self.cut_out(at, 1);
        x
    }

    // The entry at `at` becomes x and y.
    pub fn replace_by_two(&mut self, at: usize, x: C::Item, y: C::Item)
        requires there { at < length self.old }
        requires room { length self.old ≤ page_limit → length self.old < page_limit }
        requires first_valid { T (C.Codec.valid x) }
        requires second_valid { T (C.Codec.valid y) }
        ensures len { length self.new ≡ length self.old + 1 }
        ensures after { self.new ≡ take at self.old ++ (x ∷ (y ∷ drop (at + 1) self.old)) }
        ensures few { length self.new ≤ page_limit }
    {
        self.replace(at, y);
        self.insert(at, x);
    }
}
