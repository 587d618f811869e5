// The office: a script on standard input, over 1,024 blocks in memory that it lends.
#![tactic(auto)]

use console::play;
use lent::{BLOCK_WORDS, Lent};

const BLOCKS: usize = 1024;

const WORDS: usize = BLOCKS * BLOCK_WORDS;

fn main(rt: HostRuntime) -> anyhow::Result<()> {
    let mut words = vec![in rt.alloc(); 0u64; WORDS]?;
    let mut free = vec![in rt.alloc(); 0u32; BLOCKS]?;
    let (_blocks, ran) = play(&rt, Lent::over(&mut words, &mut free));
    ran?;
    Ok(())
}
