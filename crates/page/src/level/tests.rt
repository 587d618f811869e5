// What the node above keeps of a page, for each kind and level.
ghost use Rattle.std.specs.Prelude.{◌^◌, ◌<◌, length};

use super::*;
use crate::entry::Pair;
use crate::kind::row::Rows;
use crate::kind::table::Tables;
use crate::level::leaves::Leaves;
use crate::level::nodes::Nodes;

// By the level's own function and by the one that says how many entries there may be.
fn both<L: Level>(block: u64, page: &Page<L::Entry>) -> [Child; 2]
    requires some { 0 < length page.now }
    requires few { L.Level.items_under page.now < 2 ^ 64 }
{
    [L::entry(block, page), page_entry::<L>(block, page)]
}

#[test]
fn above_a_leaf_of_a_row(rt: HostRuntime) {
    let mut page = Page::new();
    page.push(7);
    page.push(8);
    page.push(9);
    for above in both::<Leaves<Rows>>(5, &page) {
        assert_eq!(rt; (above.count, above.block, above.summary), (3, 5, 0));
    }
}

#[test]
fn above_a_leaf_of_a_table(rt: HostRuntime) {
    let mut page = Page::new();
    page.push(Pair { key: 4, word: 40 });
    page.push(Pair { key: 9, word: 90 });
    for above in both::<Leaves<Tables>>(6, &page) {
        assert_eq!(rt; (above.count, above.block, above.summary), (2, 6, 4));
    }
}

#[test]
fn above_a_node_of_a_table(rt: HostRuntime) {
    let mut page = Page::new();
    page.push(Child {
        count: 2,
        block: 6,
        summary: 4,
    });
    page.push(Child {
        count: 3,
        block: 7,
        summary: 11,
    });
    for above in both::<Nodes<Tables>>(8, &page) {
        assert_eq!(rt; (above.count, above.block, above.summary), (5, 8, 4));
    }
}
