//! Kernels as rows: equality, weak compatibility (rule 6) and merge.
ghost use Rattle.std.specs.Prelude.{Bool, true, false, not, List, ◌≡◌, ℕ, ◌+◌, ◌*◌, ◌/◌, ◌<◌, ◌≤◌, length};
ghost use Rattle.block.specs.Limits.{ITEM};
ghost use Rattle.block.specs.Lists.{same};
ghost use Rattle.itemset.specs.Rows.{Row, same_rows};
ghost use Rattle.pager.specs.Weak.{item_same, compatible, union};
ghost use Rattle.pager.specs.RowWords.{RowWords, RowsAt, apart_at};

use block::TokenSet;
use block::limits::ITEM;

/// Whether two kernels, of five words a row, are the same.
#[tactic(auto, using(crate::proofs::RowTests::same_words))]
pub fn same_kernel(a: &[u64], b: &[u64]) -> bool
    ensures { (K L : List Row) → RowWords a.now K → RowWords b.now L → result ≡ same_rows K L }
{
    a == b
}

/// Whether the items are the same, whatever their contexts.
fn same_items(a: &[u64], b: &[u64]) -> bool
    ensures items { (K L : List Row) → RowWords a.now K → RowWords b.now L → result ≡ same item_same K L }
    ensures size { result ≡ true → length a.now ≡ length b.now }
{
    if a.len() != b.len() {
        return false;
    }
    for i in 0..a.len() / ITEM {
        if a[ITEM * i] != b[ITEM * i] {
            return false;
        }
    }
    true
}

/// Whether rows i and j share a token crosswise, and none straight.
fn pair_blocks(a: &[u64], b: &[u64], i: usize, j: usize) -> bool
    requires { (i < length a.now / ITEM) × (j < length a.now / ITEM) × (length a.now ≡ length b.now) }
    ensures { result ≡ not (apart_at a.now b.now i j) }
{
    let ai = TokenSet::load(a, ITEM * i + 1);
    let aj = TokenSet::load(a, ITEM * j + 1);
    let bi = TokenSet::load(b, ITEM * i + 1);
    let bj = TokenSet::load(b, ITEM * j + 1);
    (ai.meets(bj) || aj.meets(bi)) && !(ai.meets(aj) || bi.meets(bj))
}

/// Whether row i and some later row block.
fn row_blocks(a: &[u64], b: &[u64], i: usize) -> bool
    requires { (i < length a.now / ITEM) × (length a.now ≡ length b.now) }
    ensures clear { result ≡ false → (j : ℕ) → i < j → j < length a.now / ITEM → apart_at a.now b.now i j ≡ true }
    ensures blocked { result ≡ true → (j : ℕ) × (i < j) × (j < length a.now / ITEM) × (apart_at a.now b.now i j ≡ false) }
{
    for j in i + 1..a.len() / ITEM {
        if pair_blocks(a, b, i, j) {
            return true;
        }
    }
    false
}

/// Whether two kernels are weakly compatible: the same items, and no two rows block.
pub fn weakly_compatible(a: &[u64], b: &[u64]) -> bool
    ensures { (K L : List Row) → RowWords a.now K → RowWords b.now L → result ≡ compatible K L }
{
    if !same_items(a, b) {
        return false;
    }
    for i in 0..a.len() / ITEM {
        if row_blocks(a, b, i) {
            return false;
        }
    }
    true
}

/// What a pass of placing looks for among the kernels of the states.
pub trait Placing {
    ghost takes: { List Row → List Row → Bool };

    fn takes(old: &[u64], new: &[u64]) -> bool
        ensures { (K L : List Row) → RowWords old.now K → RowWords new.now L → result ≡ takes K L };
}

/// The first pass: an equal kernel.
pub struct Equal;

impl Placing for Equal {
    ghost use Rattle.itemset.specs.Rows.{same_rows};

    ghost takes = { same_rows };

    fn takes(old: &[u64], new: &[u64]) -> bool {
        same_kernel(old, new)
    }
}

/// The second pass: a weakly compatible kernel.
pub struct Weak;

impl Placing for Weak {
    ghost use Rattle.pager.specs.Weak.{compatible};

    ghost takes = { compatible };

    fn takes(old: &[u64], new: &[u64]) -> bool {
        weakly_compatible(old, new)
    }
}

/// Joins the contexts of b to the rows of items from row `at` on, and answers whether some context grew.
pub fn merge(items: &mut [u64], at: usize, b: &[u64]) -> bool
    requires { ITEM * at + length b.now ≤ length items.old }
    ensures { (before : List ℕ) (K : List Row) (behind : List ℕ) (L : List Row) → RowsAt at before K behind items.old → RowWords b.now L → length K ≡ length L
        → RowsAt at before (union K L) behind items.new × (result ≡ not (same_rows (union K L) K)) }
{
    let mut grew = false;
    for i in 0..b.len() / ITEM {
        let p = ITEM * (at + i) + 1;
        let old = TokenSet::load(items, p);
        let new = old.join(TokenSet::load(b, ITEM * i + 1));
        grew |= new != old;
        new.store(items, p);
    }
    grew
}
