// Reading and editing single entries of a page.
ghost use Rattle.std.specs.Prelude.{◌≡◌, ℕ, ◌+◌, ◌-◌, ◌<◌, ◌≤◌, T, List, [], ◌∷◌, ◌++◌, take, slice_index_or, slice_set, length};
ghost use Rattle.page.specs.Sizes.{page_limit};

use super::Page;
use crate::codec::Codec;
use crate::sizes::WORDS;
use std::marker::PhantomData;

impl<C: Codec> Page<C> {
    pub fn new() -> Page<C>
        ensures len { length result ≡ 0 }
        ensures after { result ≡ [] }
    {
        Page {
            words: [0; WORDS],
            len: 0,
            of: PhantomData,
        }
    }

    pub fn len(&self) -> usize
        ensures len { result ≡ length self.now }
        ensures few { result ≤ page_limit }
    {
        self.len
    }

    // By its number: entries are read out of words, so there is no slice of them to go over.
    pub fn get(&self, at: usize) -> C::Item
        requires { at < length self.now }
        ensures value { (d : C.Item) → result ≡ slice_index_or self.now at d }
        ensures valid { T (C.Codec.valid result) }
        ensures few { length self.now ≤ page_limit }
    {
        C::read(&self.words, at * C::width())
    }

    // One entry more, behind the others.
    pub fn push(&mut self, x: C::Item)
        requires room { length self.old ≤ page_limit → length self.old < page_limit }
        requires valid { T (C.Codec.valid x) }
        ensures len { length self.new ≡ length self.old + 1 }
        ensures after { self.new ≡ self.old ++ (x ∷ []) }
        ensures few { length self.new ≤ page_limit }
    {
        C::write(x, &mut self.words, self.len * C::width());
        self.len += 1;
    }

    pub fn replace(&mut self, at: usize, x: C::Item)
        requires there { at < length self.old }
        requires valid { T (C.Codec.valid x) }
        ensures len { length self.new ≡ length self.old }
        ensures after { self.new ≡ slice_set self.old at x }
        ensures few { length self.new ≤ page_limit }
    {
        C::write(x, &mut self.words, at * C::width());
    }

    // The first `len` entries stay.
    pub fn truncate(&mut self, len: usize)
        requires { len ≤ length self.old }
        ensures len { length self.new ≡ len }
        ensures after { self.new ≡ take len self.old }
        ensures few { length self.new ≤ page_limit }
        ensures lent { length self.old ≤ page_limit }
    {
        self.len = len;
    }
}
