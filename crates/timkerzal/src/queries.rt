//! The queries: right sides, cells, actions, gotos, edges, marks. Each is the lower crate's, its answer in words.
ghost use Rattle.std.specs.Prelude.{◌≡◌, ◌+◌, length, get_or};
ghost use Rattle.block.specs.Block.{tokens, rules, prods};
ghost use Rattle.block.specs.Refusal.{body_refusal, body_part};
ghost use Rattle.statetable.specs.Queries.{query_of, column_of, decoded};
ghost use Rattle.timkerzal.specs.Words.{found_words, act_words};

use crate::words::{ACTS, FOUND, act_words, found_words};
use block::{body, body_refusal};
use statetable::{action, cell_word, core_mark, edge, goto_word, offered, only_mark, shift_mark};

/// Why a right side is empty: 1 to 6 or 18, or 0 where it is that of a production.
pub fn timkerzal_body_refusal(block: &[u32], p: usize) -> u32
    ensures { result ≡ body_refusal block.now p }
{
    body_refusal(block, p)
}

/// Symbols of the right side of production p; 0 for a refused block or an unknown production.
pub fn timkerzal_body_length(block: &[u32], p: usize) -> usize
    ensures { result ≡ length (body_part block.now p) }
{
    body(block, p).len()
}

/// Symbol i of the right side of production p; 0 where there is none.
pub fn timkerzal_body_symbol(block: &[u32], p: usize, i: usize) -> u32
    ensures { result ≡ get_or (body_part block.now p) i 0 }
{
    body(block, p).get(i).copied().unwrap_or(0)
}

/// The action of state s at token t.
pub fn timkerzal_action(
    block: &[u32],
    states: usize,
    actions: &[u32],
    s: usize,
    t: usize,
    answer: &mut [u32; ACTS],
)
    ensures { answer.new ≡ act_words (decoded (query_of block.now states actions.now (tokens block.now) s t)) }
{
    *answer = act_words(action(block, states, actions, s, t));
}

/// The word of the cell of state s at token t.
pub fn timkerzal_cell(
    block: &[u32],
    states: usize,
    actions: &[u32],
    s: usize,
    t: usize,
    answer: &mut [u32; FOUND],
)
    ensures { answer.new ≡ found_words (query_of block.now states actions.now (tokens block.now) s t) }
{
    *answer = found_words(cell_word(block, states, actions, s, t));
}

/// The offered mark of state s at token t.
pub fn timkerzal_offered(
    block: &[u32],
    states: usize,
    marks: &[u32],
    s: usize,
    t: usize,
    answer: &mut [u32; FOUND],
)
    ensures { answer.new ≡ found_words (query_of block.now states marks.now (tokens block.now) s t) }
{
    *answer = found_words(offered(block, states, marks, s, t));
}

/// The shift mark of state s at token t.
pub fn timkerzal_shift(
    block: &[u32],
    states: usize,
    marks: &[u32],
    s: usize,
    t: usize,
    answer: &mut [u32; FOUND],
)
    ensures { answer.new ≡ found_words (query_of block.now states marks.now (tokens block.now) s t) }
{
    *answer = found_words(shift_mark(block, states, marks, s, t));
}

/// The goto of state s for a rule: the state and one more, 0 for none.
pub fn timkerzal_goto(
    block: &[u32],
    states: usize,
    gotos: &[u32],
    s: usize,
    rule: usize,
    answer: &mut [u32; FOUND],
)
    ensures { answer.new ≡ found_words (query_of block.now states gotos.now (rules block.now) s rule) }
{
    *answer = found_words(goto_word(block, states, gotos, s, rule));
}

/// The core-reduce mark of state s for production p.
pub fn timkerzal_core(
    block: &[u32],
    states: usize,
    marks: &[u32],
    s: usize,
    p: usize,
    answer: &mut [u32; FOUND],
)
    ensures { answer.new ≡ found_words (query_of block.now states marks.now (prods block.now) s p) }
{
    *answer = found_words(core_mark(block, states, marks, s, p));
}

/// The reduce-only mark of state s.
pub fn timkerzal_only(
    block: &[u32],
    states: usize,
    marks: &[u32],
    s: usize,
    answer: &mut [u32; FOUND],
)
    ensures { answer.new ≡ found_words (query_of block.now states marks.now 1 s 0) }
{
    *answer = found_words(only_mark(block, states, marks, s));
}

/// The edge of state s on a symbol, 2r or 2t + 1: the state and one more, 0 for none.
pub fn timkerzal_edge(
    block: &[u32],
    states: usize,
    edges: &[u32],
    s: usize,
    x: usize,
    answer: &mut [u32; FOUND],
)
    ensures { answer.new ≡ found_words (query_of block.now states edges.now (rules block.now + tokens block.now) s (column_of block.now x)) }
{
    *answer = found_words(edge(block, states, edges, s, x));
}
