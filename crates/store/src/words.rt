// Words of a block, to an array and back.
ghost use Rattle.std.specs.Prelude.{◌≡◌, ℕ, ◌+◌, ◌≤◌, take, drop, slice_index};
ghost use Rattle.std.proofs.Math.Seq.{paste};
ghost use Rattle.store.specs.Memory.{Stored, asked, wrote};

use crate::Store;

// The n words of block b from word `first` on, and 0 behind them.
pub fn load<W: Store, const N: usize>(m: &mut W::Memory, b: u32, first: u32, n: u32) -> [u64; N]
    requires inside { first + n ≤ 64 }
    requires fits { n ≤ N }
    requires asks { n ≤ (W.Store.memory m.old).left }
    requires there { Stored (W.Store.memory m.old).block b }
    ensures words { take n result ≡ take n (drop first ((W.Store.memory m.old).block b)) }
    ensures behind { (i : ℕ) → n ≤ i → slice_index result i ≡ 0 }
    ensures same { W.Store.memory m.new ≡ asked n (W.Store.memory m.old) }
{
    let mut words = [0; N];
    for i in 0..n {
        words[i as usize] = W::get(m, b, first + i);
    }
    words
}

// The first n of the words go into block b, from word `first` on.
pub fn store<W: Store, const N: usize>(
    m: &mut W::Memory,
    b: u32,
    first: u32,
    n: u32,
    words: &[u64; N],
)
    requires inside { first + n ≤ 64 }
    requires fits { n ≤ N }
    requires asks { n ≤ (W.Store.memory m.old).left }
    requires there { Stored (W.Store.memory m.old).block b }
    ensures { W.Store.memory m.new ≡ wrote n b (paste ((W.Store.memory m.old).block b) first words.now n) (W.Store.memory m.old) }
{
    for i in 0..n {
        W::put(m, b, first + i, words[i as usize]);
    }
}
