// A stack of numbers that lies in a lent slice.
ghost use Rattle.std.specs.Prelude.{◌≤◌, length};

mod methods;

// The first `count` of the numbers are on it, the last of them on top. A slice and a count, since the memory is lent, and a slice alone can't grow back.
#[derive(Drop)]
pub(crate) struct Stack<'a> {
    numbers: &'a mut [u32],
    count: usize,
    ghost within: { count ≤ length numbers.now },
}
