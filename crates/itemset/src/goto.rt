//! Rule 4: the symbols behind dots in order of first sight, and the goto kernel of each.

ghost use Rattle.std.specs.Prelude.{List, ◌≡◌, ℕ, ◌<◌, ◌/◌};
ghost use Rattle.block.specs.Limits.{DOTS};
ghost use Rattle.block.specs.Block.{prods};
ghost use Rattle.itemset.specs.Rows.{Row};
ghost use Rattle.itemset.specs.Close.{rest_of};
ghost use Rattle.itemset.specs.Goto.{sights_of, goto_of};
ghost use Rattle.itemset.specs.Lent.{RowsIn, ForGoto, Wrote};
ghost use Rattle.itemset.specs.Sights.{after_of, is_next, SightsAre};

use crate::lay::put_row;
use block::limits::{DOTS, ITEM, RULES, TOKENS};
use block::{Grammar, TokenSet};

/// Most symbols.
const SIGHTS: usize = RULES + TOKENS;

/// Above the number of every symbol.
const NUMBERS: usize = 2 * SIGHTS;

/// The symbols sighted, in order, and zeros behind them.
// stays: no heap in this crate, so no Vec; `as_slice` has the symbols sighted alone.
#[derive(Clone, Copy)]
pub struct Sights {
    pub count: usize,
    pub symbols: [u32; SIGHTS],
}

impl Sights {
    /// The symbols sighted, in order, without the zeros behind them.
    pub fn as_slice(&self) -> &[u32]
        requires { (xs : List ℕ) × SightsAre self.now xs }
        ensures { (xs : List ℕ) → SightsAre self.now xs → result.now ≡ xs }
    {
        &self.symbols[..self.count]
    }
}

/// The symbol behind the item's dot, if one is there.
fn symbol_after(grammar: Grammar<'_>, item: usize) -> Option<u32>
    requires { item / DOTS < prods grammar.words.now }
    ensures { result ≡ after_of (rest_of grammar.entry.words.now item) }
{
    grammar.body(item / DOTS).get(item % DOTS).copied()
}

/// Whether x is behind the item's dot.
fn is_next(grammar: Grammar<'_>, item: usize, x: usize) -> bool
    requires { item / DOTS < prods grammar.words.now }
    ensures { result ≡ is_next (rest_of grammar.entry.words.now item) x }
{
    symbol_after(grammar, item).is_some_and(|y| y as usize == x)
}

/// The symbols behind the dots of closed rows, each once, in order of first sight.
pub fn sights_of(grammar: Grammar<'_>, closed: &[u64]) -> Sights
    requires { (C : List Row) × RowsIn grammar.words.now closed.now C }
    ensures { (C : List Row) → RowsIn grammar.entry.words.now closed.now C → SightsAre result (sights_of grammar.entry.words.now C) }
{
    let mut seen = [false; NUMBERS];
    let mut symbols = [0; SIGHTS];
    let mut count = 0;
    let (rows, _) = closed.as_chunks::<ITEM>();
    for row in rows {
        if let Some(x) = symbol_after(grammar, row[0] as usize) {
            if !seen[x as usize] {
                seen[x as usize] = true;
                symbols[count] = x;
                count += 1;
            }
        }
    }
    Sights { count, symbols }
}

/// The rows with x behind the dot, each with its dot moved. Answers how many.
pub fn goto_kernel(grammar: Grammar<'_>, closed: &[u64], x: usize, out: &mut [u64]) -> usize
    requires { (C : List Row) × ForGoto grammar.words.now closed.now out.old C }
    ensures { (C : List Row) → ForGoto grammar.entry.words.now closed.now out.old C → Wrote (goto_of grammar.entry.words.now C x) result out.old out.new }
{
    let (closed_rows, _) = closed.as_chunks::<ITEM>();
    let mut rows = 0;
    for row in closed_rows {
        let item = row[0] as usize;
        if is_next(grammar, item, x) {
            put_row(out, rows, item + 1, TokenSet::load(row, 1));
            rows += 1;
        }
    }
    rows
}
