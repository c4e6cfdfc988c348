//! The list of closures.
ghost use Rattle.std.specs.Prelude.{true, List, MatchOption, ◌∷◌, ◌++◌, ◌↔◌, ◌≡◌, ◌*◌, ◌≤◌, ℕ};
ghost use Rattle.words.specs.Given.{as_part};
ghost use Rattle.block.specs.Limits.{ITEM};
ghost use Rattle.block.specs.Block.{symbols};
ghost use Rattle.itemset.specs.Rows.{Row, words_of};
ghost use Rattle.itemset.specs.Lent.{RowsIn};
ghost use Rattle.itemset.specs.Goto.{goto_of};
ghost use Rattle.listed_itemset.specs.Cases.{ROWS, goto_words, KernelCase, ClosureCase};

use block::limits::ITEM;
use block::{Firsts, Grammar};
use itemset::{close, goto_kernel, rows_right, sights_of};
use listed_block::rooms::BLOCK;
use words::{given, same, split_part};

/// Words of the room for rows: a block that may need more is too large for a case.
const ROWS: usize = 4096;

/// Whether the rows are the goto kernel of the symbol x.
fn goto_holds(grammar: Grammar<'_>, closed: &[u64], x: usize, rows: &[u64]) -> bool
    requires closed { (C : List Row) × RowsIn grammar.words.now closed.now C }
    requires room { ITEM * symbols grammar.words.now ≤ ROWS }
    ensures { (C : List Row) → RowsIn grammar.entry.words.now closed.now C → (result ≡ true) ↔ (rows.now ≡ words_of (goto_of grammar.entry.words.now C x)) }
{
    let mut room = [0u64; ROWS];
    let n = goto_kernel(grammar, closed, x, &mut room);
    same(rows, &room[..ITEM * n])
}

/// What stands behind symbol [kernel rows]. None where that does not stand in front.
fn behind_goto<'a>(
    grammar: Grammar<'_>,
    closed: &[u64],
    symbol: u32,
    rest: &'a [u64],
) -> Option<&'a [u64]>
    requires closed { (C : List Row) × RowsIn grammar.words.now closed.now C }
    requires room { ITEM * symbols grammar.words.now ≤ ROWS }
    ensures { (C : List Row) → RowsIn grammar.entry.words.now closed.now C → MatchOption result
        ((more : List ℕ) → rest.now ≡ symbol ∷ (as_part (words_of (goto_of grammar.entry.words.now C symbol)) ++ more) → ⊥)
        (λ more. rest.now ≡ symbol ∷ (as_part (words_of (goto_of grammar.entry.words.now C symbol)) ++ more.now)) }
{
    let (x, next) = rest.split_first()?;
    if *x != u64::from(symbol) {
        return None;
    }
    let (rows, more) = split_part(next)?;
    if !goto_holds(grammar, closed, symbol as usize, rows) {
        return None;
    }
    Some(more)
}

/// count  symbol [kernel rows]  symbol [kernel rows] ..
fn gotos_hold(grammar: Grammar<'_>, closed: &[u64], expected: &[u64]) -> bool
    requires closed { (C : List Row) × RowsIn grammar.words.now closed.now C }
    requires room { ITEM * symbols grammar.words.now ≤ ROWS }
    ensures { (C : List Row) → RowsIn grammar.entry.words.now closed.now C → (result ≡ true) ↔ (expected.now ≡ goto_words grammar.entry.words.now C) }
{
    let sights = sights_of(grammar, closed);
    let symbols = sights.as_slice();
    let Some((count, gotos)) = expected.split_first() else {
        return false;
    };
    if *count != symbols.len() as u64 {
        return false;
    }
    let mut rest = gotos;
    for symbol in symbols {
        let Some(next) = behind_goto(grammar, closed, *symbol, rest) else {
            return false;
        };
        rest = next;
    }
    rest.is_empty()
}

/// [kernel rows] → [closed rows] and the gotos
fn kernel_holds(grammar: Grammar<'_>, kernel: &[u64], expected: &[u64]) -> bool
    ensures { (result ≡ true) ↔ KernelCase grammar.entry.words.now kernel.now expected.now }
{
    if ROWS / ITEM < grammar.symbols() + grammar.productions() {
        return false;
    }
    if !rows_right(grammar, kernel) {
        return false;
    }
    let Some((rows, gotos)) = split_part(expected) else {
        return false;
    };
    let firsts = Firsts::new(grammar);
    let mut room = [0u64; ROWS];
    let n = close(&firsts, kernel, &mut room);
    let closed = &room[..ITEM * n];
    if !same(rows, closed) {
        return false;
    }
    gotos_hold(grammar, closed, gotos)
}

/// [good block] [kernel rows] → [closed rows] count  symbol [kernel rows]  symbol [kernel rows] ..
// Not inlined, so that its rooms stand in no other frame (docs/DECISIONS.md, 67).
#[inline(never)]
pub fn closure_holds(words: &[u64]) -> bool
    ensures { (result ≡ true) ↔ ClosureCase words.now }
{
    let mut room = [0u32; BLOCK];
    let Some((block, rest)) = given(words, &mut room) else {
        return false;
    };
    let Ok(grammar) = Grammar::check(block) else {
        return false;
    };
    let Some((kernel, expected)) = split_part(rest) else {
        return false;
    };
    kernel_holds(grammar, kernel, expected)
}
