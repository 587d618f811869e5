// Blocks got in advance, all or none, and given back.
ghost use Rattle.std.specs.Prelude.{◌+◌, ◌*◌, ◌<◌, ◌≤◌, MatchResult, length};
ghost use Rattle.store.specs.Fresh.{Returned};
ghost use Rattle.store.specs.Memory.{Stored};
ghost use Rattle.store.specs.Stocked.{Stocked};
ghost use Rattle.store.specs.Reserve.{capacity, uses, Reserved, Undone, GivenAll};

use crate::Store;
use crate::fresh::Fresh;
use crate::reserve::Reserve;

// The memory refused a block.
#[derive(Clone, Copy, Debug, PartialEq, Eq)]
pub struct NoRoom;

// n blocks, or none: then all is as it was.
pub fn reserve<W: Store>(m: &mut W::Memory, n: usize) -> Result<Reserve, NoRoom>
    requires few { n ≤ capacity }
    requires asks { 2 * n ≤ (W.Store.memory m.old).left }
    requires room { (W.Store.memory m.old).many + n ≤ (W.Store.memory m.old).top }
    ensures { MatchResult result (λ s. Reserved n (W.Store.memory m.old) s (W.Store.memory m.new)) (λ _. Undone n (W.Store.memory m.old) (W.Store.memory m.new)) }
{
    let mut got = Reserve::new();
    for _ in 0..n {
        match Fresh::obtain::<W>(m) {
            Ok(f) => got.push(f),
            Err(refused) => {
                give_all::<W>(got, m);
                return Err(refused);
            }
        }
    }
    Ok(got)
}

// Every block of the reserve goes back to the memory.
pub fn give_all<W: Store>(mut rest: Reserve, m: &mut W::Memory)
    requires asks { length rest ≤ (W.Store.memory m.old).left }
    requires held { length rest ≤ (W.Store.memory m.old).many }
    requires there { Stocked (uses rest) (W.Store.memory m.old).block }
    ensures { GivenAll (W.Store.memory m.old) rest (W.Store.memory m.new) }
{
    while let Some(f) = rest.pop() {
        give_one::<W>(f, m);
    }
}

// One block goes back.
fn give_one<W: Store>(f: Fresh, m: &mut W::Memory)
    requires asks { 0 < (W.Store.memory m.old).left }
    requires held { 0 < (W.Store.memory m.old).many }
    requires there { Stored (W.Store.memory m.old).block f.number }
    ensures { Returned (W.Store.memory m.old) f.number (W.Store.memory m.new) }
{
    f.give_back::<W>(m);
}
