// The levels of a tree on which pages of a kind stand, and what it means there that two of them share.
ghost use Rattle.std.specs.Prelude.{◌≡◌, ℕ, ◌<◌};
ghost use Rattle.store.specs.Memory.{Memory};
ghost use Rattle.tree.specs.Climb.{risen_list};
ghost use Rattle.tree.specs.declared.risen.Risen.{Risen};
ghost use Rattle.shrink.specs.Asks.{share_asks};
ghost use Rattle.shrink.specs.Sharing.{Sharable, Above, Neighbours, Shared};
ghost use Rattle.shrink.specs.Tiers.{leaves_sharable, leaves_shared, nodes_sharable, nodes_shared};

use page::kind::Kind;
use page::level::Level;
use page::level::leaves::Leaves;
use page::level::nodes::Nodes;

pub trait Tier: Level {
    // the heights at which such pages stand, leaves having 0
    ghost at: { ℕ → Type 0 };

    // two neighbours there can share
    ghost sharable: { (h a b : ℕ) (m : Memory) → at h → Neighbours Self.Kind.layout h a b m → Sharable Self.read Self.most a b m Self.items_under };

    // and they are one or two trees then, with the same items
    ghost shared: { (h a b : ℕ) (m m' : Memory) (r : Risen) → at h → Neighbours Self.Kind.layout h a b m → Above Self.read Self.most a b m share_asks Self.entry r m' → Shared Self.Kind.layout share_asks h a b m (risen_list r) m' };
}

impl<K: Kind> Tier for Leaves<K> {
    ghost at = { λ h. h ≡ 0 };

    ghost sharable = { leaves_sharable K.layout };

    ghost shared = { leaves_shared K.layout };
}

impl<K: Kind> Tier for Nodes<K> {
    ghost at = { λ h. 0 < h };

    ghost sharable = { nodes_sharable K.layout K.lawful };

    ghost shared = { nodes_shared K.layout K.lawful };
}
