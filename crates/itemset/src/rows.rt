//! Whether words that someone brings are the rows of a state.

ghost use Rattle.std.specs.Prelude.{true, List, ◌↔◌, ◌≡◌};
ghost use Rattle.itemset.specs.Rows.{Row};
ghost use Rattle.itemset.specs.Lent.{RowsIn};
ghost use Rattle.itemset.specs.Right.{item_right};

use block::Grammar;
use block::limits::{DOTS, ITEM};

/// Whether the item is one of the grammar: a production, and a dot within its right side.
#[tactic(auto, unfolding(crate::specs::Right::item_right))]
fn item_right(grammar: Grammar<'_>, item: usize) -> bool
    ensures { result ≡ item_right grammar.entry.words.now item }
{
    let p = item / DOTS;
    p < grammar.productions() && item % DOTS <= grammar.length(p)
}

/// Any words: whether they are items of the grammar, ascending, each with its context.
pub fn rows_right(grammar: Grammar<'_>, words: &[u64]) -> bool
    ensures { (result ≡ true) ↔ ((K : List Row) × RowsIn grammar.entry.words.now words.now K) }
{
    if words.len() % ITEM != 0 {
        return false;
    }
    let mut least = 0;
    let (rows, _) = words.as_chunks::<ITEM>();
    for row in rows {
        let item = row[0] as usize;
        if item < least {
            return false;
        }
        if !item_right(grammar, item) {
            return false;
        }
        least = item + 1;
    }
    true
}
