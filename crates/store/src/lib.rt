// Block memory as the trees see it.
#![tactic(auto)]

ghost use Rattle.std.specs.Prelude.{◌≡◌, ◌<◌, MatchOption, slice_index};
ghost use Rattle.store.specs.Memory.{Memory, Stored, Got, asked, written, released, refused};

pub mod fresh;
pub mod gather;
pub mod reserve;
pub mod words;

// Memory of blocks of 64 words, held in a value of another type. Each call is one asking.
// Not methods of that type: `things` couldn't give them to all its grounds, since this trait is of another crate;
// and a struct that holds a `&mut` to a ground would have to say after each call that it is still the same one.
pub trait Store {
    type Memory;

    ghost memory: { Self.Memory → Memory };

    fn obtain(m: &mut Self::Memory) -> Option<u32>
        requires asks { 0 < (memory m.old).left }
        requires room { (memory m.old).many < (memory m.old).top }
        ensures { MatchOption result (memory m.new ≡ refused (memory m.old)) (λ b. Got (memory m.old) b (memory m.new)) };

    fn release(m: &mut Self::Memory, b: u32)
        requires asks { 0 < (memory m.old).left }
        requires there { Stored (memory m.old).block b }
        ensures { memory m.new ≡ released b (memory m.old) };

    fn get(m: &mut Self::Memory, b: u32, i: u32) -> u64
        requires asks { 0 < (memory m.old).left }
        requires there { Stored (memory m.old).block b }
        requires inside { i < 64 }
        ensures word { result ≡ slice_index ((memory m.old).block b) i }
        ensures same { memory m.new ≡ asked 1 (memory m.old) };

    fn put(m: &mut Self::Memory, b: u32, i: u32, x: u64)
        requires asks { 0 < (memory m.old).left }
        requires there { Stored (memory m.old).block b }
        requires inside { i < 64 }
        ensures { memory m.new ≡ written b i x (memory m.old) };
}
