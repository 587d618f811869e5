// A page and the words of a block: how many entries there are, a spare word, the entries.
ghost use Rattle.std.specs.Prelude.{◌≡◌, ℕ, ◌*◌, ◌≤◌, slice_index, slice_set, length};
ghost use Rattle.page.specs.Layout.{imaged};
ghost use Rattle.page.specs.Sizes.{block_room, page_limit};

use super::Page;
use crate::codec::Codec;
use crate::sizes::{BLOCK, HEAD, ROOM};

// How many entries a block holds.
fn read_head(image: &[u64; BLOCK]) -> usize
    ensures { result ≡ slice_index image.now 0 }
{
    image[0] as usize
}

// Says how many there are, and clears the spare word.
fn write_head(image: &mut [u64; BLOCK], count: usize)
    ensures { image.new ≡ slice_set (slice_set image.old 0 count) 1 0 }
{
    image[0] = count as u64;
    image[1] = 0;
}

impl<C: Codec> Page<C> {
    // The page that a block's words hold.
    pub fn unpack(image: &[u64; BLOCK]) -> Page<C>
        requires { slice_index image.now 0 * C.Codec.width ≤ block_room }
        ensures len { length result ≡ slice_index image.now 0 }
        ensures after { result ≡ imaged C.Codec.width C.Codec.decode image.now }
        ensures few { length result ≤ page_limit }
    {
        let mut page = Page::new();
        page.words[0..ROOM].copy_from_slice(&image[HEAD..BLOCK]);
        page.len = read_head(image);
        page
    }

    // The page, in a block's words.
    pub fn pack(&self, image: &mut [u64; BLOCK])
        requires { length self.now * C.Codec.width ≤ block_room }
        ensures len { slice_index image.new 0 ≡ length self.now }
        ensures spare { slice_index image.new 1 ≡ 0 }
        ensures after { imaged C.Codec.width C.Codec.decode image.new ≡ self.now }
        ensures few { length self.now ≤ page_limit }
    {
        image[HEAD..BLOCK].copy_from_slice(&self.words[0..ROOM]);
        write_head(image, self.len);
    }
}
