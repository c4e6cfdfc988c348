//! Closed rows laid out: the items with dot 0 and the kernel's others, ascending.

ghost use Rattle.std.specs.Prelude.{List, ◌∷◌, ◌≡◌, ◌+◌, ◌*◌, ◌≤◌, length};
ghost use Rattle.std.proofs.Math.Seq.{paste};
ghost use Rattle.block.specs.Limits.{ITEM};
ghost use Rattle.itemset.specs.Rows.{Row};
ghost use Rattle.itemset.specs.Lay.{next_item, marks_of, contexts_of, lay_of};
ghost use Rattle.itemset.specs.Lent.{ForLay, Wrote};

use crate::closure::Closure;
use block::limits::{DOTS, ITEM, PRODS};
use block::{Grammar, TokenSet};

/// A row of `out` becomes an item with its context.
pub fn put_row(out: &mut [u64], row: usize, item: usize, set: TokenSet)
    requires { ITEM * (row + 1) ≤ length out.old }
    ensures { out.new ≡ paste out.old (ITEM * row) (item ∷ set.words) ITEM }
{
    let at = ITEM * row;
    out[at] = item as u64;
    set.store(out, at + 1);
}

/// The item of row k, or behind the last row a number above every item.
#[tactic(auto, unfolding(crate::specs::Lay::next_item))]
fn next_item(kernel: &[u64], k: usize) -> usize
    requires { ITEM * k ≤ length kernel.now }
    ensures { result ≡ next_item kernel.now k }
{
    // stays: a number above every item lets one comparison take the lesser of two lists; an Option asks for a second test.
    match kernel.get(ITEM * k) {
        Some(item) => *item as usize,
        None => DOTS * PRODS,
    }
}

/// Lays out the items with dot 0 that are there and the kernel's others. Answers how many rows it laid out.
pub fn lay(grammar: Grammar<'_>, kernel: &[u64], closure: &Closure, out: &mut [u64]) -> usize
    requires { (K : List Row) × ForLay grammar.words.now kernel.now out.old (contexts_of closure.now) K }
    ensures { (K : List Row) → ForLay grammar.entry.words.now kernel.now out.old (contexts_of closure.now) K → Wrote (lay_of grammar.entry.words.now (marks_of closure.now) (contexts_of closure.now) K) result out.old out.new }
{
    let prods = grammar.productions();
    let n = kernel.len() / ITEM;
    let mut p = 0;
    let mut k = 0;
    let mut rows = 0;
    // stays: two cursors merge two ascending lists, and a `for` over one of them has a loop over the other within.
    while p + k < prods + n {
        let item = next_item(kernel, k);
        if DOTS * p < item {
            if closure.here[p] {
                put_row(out, rows, DOTS * p, closure.contexts[p]);
                rows += 1;
            }
            p += 1;
        } else {
            if item % DOTS != 0 {
                put_row(out, rows, item, TokenSet::load(kernel, ITEM * k + 1));
                rows += 1;
            }
            k += 1;
        }
    }
    rows
}
