// A block of the reserve becomes part of a tree.
ghost use Rattle.std.specs.Prelude.{◌≡◌, ◌<◌, ◌∷◌, length};

use store::reserve::Reserve;

// The next one.
pub(crate) fn take_block(reserve: &mut Reserve) -> u32
    requires some { 0 < length reserve.old }
    ensures { reserve.old ≡ result ∷ reserve.new }
{
    reserve.take().into_block()
}
