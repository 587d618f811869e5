// Two neighbours of which one is too empty: their entries go onto one page, or evenly onto both.
ghost use Rattle.std.specs.Prelude.{◌≡◌, ◌^◌, ◌<◌, ◌≤◌, T, Some, None, IfSome, MatchOption, length};
ghost use Rattle.store.specs.Memory.{Stored, released};
ghost use Rattle.tree.specs.Pages.{page_asks, Writing};
ghost use Rattle.shrink.specs.Asks.{share_asks};
ghost use Rattle.shrink.specs.Sharing.{Sharable, Above};

use page::child::Child;
use page::level::{Level, page_entry};
use page::page::Page;
use store::Store;
use tree::pages::{load_page, store_page};
use tree::risen::Risen;

// The page goes to block b, and what stands above it is made; but where it was merged into another, the block is given back.
fn keep_or_release<L: Level, W: Store>(
    m: &mut W::Memory,
    b: u32,
    page: Option<Page<L::Entry>>,
) -> Option<Child>
    requires asks { page_asks ≤ (W.Store.memory m.old).left }
    requires there { Stored (W.Store.memory m.old).block b }
    requires held { 0 < (W.Store.memory m.old).many }
    requires some { IfSome page (λ p. 0 < length p) }
    requires few { IfSome page (λ p. length p ≤ L.Level.most) }
    requires counted { IfSome page (λ p. L.Level.items_under p < 2 ^ 64) }
    ensures value { MatchOption page (result ≡ None) (λ p. result ≡ Some (L.Level.entry b p)) }
    ensures valid { IfSome result (λ k. T (L.Kind.Node.Codec.valid k)) }
    ensures after { MatchOption page (W.Store.memory m.new ≡ released b (W.Store.memory m.old)) (λ p. Writing page_asks L.Level.read b p (W.Store.memory m.old) (W.Store.memory m.new)) }
{
    match page {
        None => {
            W::release(m, b);
            None
        }
        Some(page) => {
            store_page::<L, W>(m, b, &page);
            Some(page_entry::<L>(b as u64, &page))
        }
    }
}

// The pages at blocks a and b, neighbours, become one at a, and b is given back; or two that are half full. What stands above them then.
pub fn share<L: Level, W: Store>(m: &mut W::Memory, a: u32, b: u32) -> Risen
    requires asks { share_asks ≤ (W.Store.memory m.old).left }
    requires sharable { Sharable L.Level.read L.Level.most a b (W.Store.memory m.old) L.Level.items_under }
    ensures above { Above L.Level.read L.Level.most a b (W.Store.memory m.old) share_asks L.Level.entry result (W.Store.memory m.new) }
    ensures first_valid { T (L.Kind.Node.Codec.valid result.first) }
    ensures second_valid { IfSome result.second (λ k. T (L.Kind.Node.Codec.valid k)) }
{
    let mut left = load_page::<L, W>(m, a);
    let right = load_page::<L, W>(m, b);
    let right = left.even_out(right, L::most());
    store_page::<L, W>(m, a, &left);
    let first = page_entry::<L>(a as u64, &left);
    let second = keep_or_release::<L, W>(m, b, right);
    Risen { first, second }
}
