// The climb up a path: each node on it is put right.
ghost use Rattle.std.specs.Prelude.{[], length};
ghost use Rattle.shrink.specs.Shrinking.{Start, Climbing};

use crate::turn::turn;
use page::child::Child;
use page::kind::Kind;
use page::level::leaves::Leaves;
use page::level::nodes::Nodes;
use store::Store;
use tree::path::Path;

// The leaf at the path's end changed; what stands above the topmost page then, if it is full enough for a page below others.
pub fn climb<K: Kind, W: Store>(
    m: &mut W::Memory,
    mut path: Path,
    risen: Option<Child>,
) -> Option<Child>
    requires { (z : Start K.Item) × Climbing K.Kind.layout z 0 path (W.Store.memory m.old) risen }
    ensures { (z : Start K.Item) → Climbing K.Kind.layout z 0 path (W.Store.memory m.old) risen → Climbing K.Kind.layout z (length path) [] (W.Store.memory m.new) result }
{
    let mut top = risen;
    if let Some(lowest) = path.pop() {
        top = turn::<Leaves<K>, W>(m, lowest, top);
    }
    while let Some(node) = path.pop() {
        top = turn::<Nodes<K>, W>(m, node, top);
    }
    top
}
