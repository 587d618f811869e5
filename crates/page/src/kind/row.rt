// Rows: words, of which nothing is kept but how many there are.
ghost use Rattle.page.specs.Kinds.{row_layout};
ghost use Rattle.page.specs.Readers.{row_items, row_children};
ghost use Rattle.std.proofs.Common.{rules};

use super::Kind;
use crate::codec::children::RowChildren;
use crate::codec::items::Words;
use crate::page::Page;
use crate::sizes::{ROW_LEAF, ROW_NODE};

pub struct Rows;

impl Kind for Rows {
    type Item = u64;

    type Leaf = Words;

    type Node = RowChildren;

    ghost layout = { row_layout };

    ghost leaves = { λ ws. row_items ws };

    ghost nodes = { λ ws. row_children ws };

    ghost lawful = { Prim.search rules };

    ghost leaf_fits = { Prim.search rules };

    ghost node_fits = { Prim.search rules };

    ghost items_valid = { Prim.search rules };

    ghost entries_valid = { Prim.search rules };

    ghost keeps_valid = { Prim.search rules };

    ghost joins_valid = { Prim.search rules };

    ghost count_at = { Prim.search rules };

    ghost block_at = { Prim.search rules };

    ghost wide = { Prim.search rules };

    fn leaf_cap() -> usize {
        ROW_LEAF
    }

    fn node_cap() -> usize {
        ROW_NODE
    }

    fn join(_a: u64, _b: u64) -> u64 {
        0
    }

    fn leaf_summary(_page: &Page<Words>) -> u64 {
        0
    }
}
