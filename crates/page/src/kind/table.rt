// Tables: pairs, of which the first key is kept.
ghost use Rattle.page.specs.Kinds.{table_layout};
ghost use Rattle.page.specs.Readers.{table_items, table_children};
ghost use Rattle.std.proofs.Common.{rules};

use super::Kind;
use crate::codec::children::TableChildren;
use crate::codec::items::Pairs;
use crate::entry::Pair;
use crate::page::Page;
use crate::sizes::{TABLE_LEAF, TABLE_NODE};

pub struct Tables;

impl Kind for Tables {
    type Item = Pair;

    type Leaf = Pairs;

    type Node = TableChildren;

    ghost layout = { table_layout };

    ghost leaves = { λ ws. table_items ws };

    ghost nodes = { λ ws. table_children ws };

    ghost lawful = { Prim.search rules };

    ghost leaf_fits = { Prim.search rules };

    ghost node_fits = { Prim.search rules };

    ghost items_valid = { Prim.search rules };

    ghost entries_valid = { Prim.search rules };

    ghost keeps_valid = { Prim.search rules };

    ghost joins_valid = { Prim.search rules };

    ghost count_at = { Prim.search rules };

    ghost block_at = { Prim.search rules };

    ghost wide = { Prim.search rules };

    fn leaf_cap() -> usize {
        TABLE_LEAF
    }

    fn node_cap() -> usize {
        TABLE_NODE
    }

    fn join(a: u64, _b: u64) -> u64 {
        a
    }

    fn leaf_summary(page: &Page<Pairs>) -> u64 {
        page.get(0).key
    }
}
