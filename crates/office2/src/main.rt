// The office over blocks of C's allocator.
#![tactic(auto)]

use console::play;
use heap::Heap;

fn main(rt: HostRuntime) -> anyhow::Result<()> {
    let (_empty, ran) = play(&rt, Heap::new(rt.memory()));
    ran?;
    Ok(())
}
