// The free list of a heap that holds nothing.
ghost use Rattle.std.specs.Prelude.{◌≡◌, ℕ, ◌<◌, slice_index};
ghost use Rattle.heap.specs.Sizes.{block_count};

use crate::BLOCKS;

// The number of every block.
pub(crate) fn all_free() -> [u32; BLOCKS]
    ensures { (j : ℕ) → j < block_count → slice_index result j ≡ j }
{
    std::array::from_fn(
        |n| -> u32
            requires { n < block_count }
            ensures { result ≡ n }
        { n as u32 },
    )
}
