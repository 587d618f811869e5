// What a stack does.
ghost use Rattle.std.specs.Prelude.{◌≡◌, ◌^◌, ◌<◌, [], ◌∷◌, length, MatchOption};
ghost use Rattle.lent.specs.Free.{on_stack, down_from};

use super::Stack;

impl<'a> Stack<'a> {
    // All numbers that it has room for, from 0 on.
    pub(crate) fn full(numbers: &'a mut [u32]) -> Stack<'a>
        requires { length numbers.old < 2 ^ 32 }
        ensures all { on_stack result ≡ down_from (length numbers.old) }
        ensures room { length result.numbers.now ≡ length numbers.old }
    {
        for (i, x) in numbers.iter_mut().enumerate() {
            *x = i as u32;
        }
        let count = numbers.len();
        Stack { numbers, count }
    }

    // How many are on it.
    pub(crate) fn len(&self) -> usize
        ensures { result ≡ length (on_stack self.now) }
    {
        self.count
    }

    // The number on top, which is no longer there then.
    pub(crate) fn pop(&mut self) -> Option<u32>
        ensures top { MatchOption result ((on_stack self.old ≡ []) × (on_stack self.new ≡ [])) (λ b. on_stack self.old ≡ b ∷ on_stack self.new) }
        ensures room { length self.new.numbers.now ≡ length self.old.numbers.now }
    {
        self.count = self.count.checked_sub(1)?;
        Some(self.numbers[self.count])
    }

    pub(crate) fn push(&mut self, b: u32)
        requires { length (on_stack self.old) < length self.old.numbers.now }
        ensures top { on_stack self.new ≡ b ∷ on_stack self.old }
        ensures room { length self.new.numbers.now ≡ length self.old.numbers.now }
    {
        self.numbers[self.count] = b;
        self.count += 1;
    }
}
