// Takes a word through a block of a heap, and says what came out.
#![tactic(auto)]

use heaptour::carry;

fn main(rt: HostRuntime) -> Result<(), std::io::Error> {
    match carry(rt.memory(), 77) {
        Some(x) => println!(rt; "{x} went through a block")?,
        None => println!(rt; "the heap had no block")?,
    }
    Ok(())
}
