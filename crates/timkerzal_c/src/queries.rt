//! The queries: right sides, cells, actions, gotos, edges, marks. Each is the library's.
ghost use Rattle.std.specs.Prelude.{◌≡◌, ◌+◌, length, get_or};
ghost use Rattle.block.specs.Block.{tokens, rules, prods};
ghost use Rattle.block.specs.Refusal.{body_refusal, body_part};
ghost use Rattle.statetable.specs.Queries.{query_of, column_of, decoded};
ghost use Rattle.timkerzal.specs.Words.{found_words, act_words};

use timkerzal::{ACTS, FOUND};

/// Why a right side is empty: 1 to 6 or 18, or 0 where it is that of a production.
#[unsafe(no_mangle)]
pub extern "C" fn timkerzal_body_refusal(block: &[u32], p: usize) -> u32
    ensures { result ≡ body_refusal block.now p }
{
    timkerzal::timkerzal_body_refusal(block, p)
}

/// Symbols of the right side of production p; 0 for a refused block or an unknown production.
#[unsafe(no_mangle)]
pub extern "C" fn timkerzal_body_length(block: &[u32], p: usize) -> usize
    ensures { result ≡ length (body_part block.now p) }
{
    timkerzal::timkerzal_body_length(block, p)
}

/// Symbol i of the right side of production p; 0 where there is none.
#[unsafe(no_mangle)]
pub extern "C" fn timkerzal_body_symbol(block: &[u32], p: usize, i: usize) -> u32
    ensures { result ≡ get_or (body_part block.now p) i 0 }
{
    timkerzal::timkerzal_body_symbol(block, p, i)
}

/// The action of state s at token t.
#[unsafe(no_mangle)]
pub extern "C" fn timkerzal_action(
    block: &[u32],
    states: usize,
    actions: &[u32],
    s: usize,
    t: usize,
    answer: &mut [u32; ACTS],
)
    ensures { answer.new ≡ act_words (decoded (query_of block.now states actions.now (tokens block.now) s t)) }
{
    timkerzal::timkerzal_action(block, states, actions, s, t, answer);
}

/// The word of the cell of state s at token t.
#[unsafe(no_mangle)]
pub extern "C" fn timkerzal_cell(
    block: &[u32],
    states: usize,
    actions: &[u32],
    s: usize,
    t: usize,
    answer: &mut [u32; FOUND],
)
    ensures { answer.new ≡ found_words (query_of block.now states actions.now (tokens block.now) s t) }
{
    timkerzal::timkerzal_cell(block, states, actions, s, t, answer);
}

/// The offered mark of state s at token t.
#[unsafe(no_mangle)]
pub extern "C" fn timkerzal_offered(
    block: &[u32],
    states: usize,
    marks: &[u32],
    s: usize,
    t: usize,
    answer: &mut [u32; FOUND],
)
    ensures { answer.new ≡ found_words (query_of block.now states marks.now (tokens block.now) s t) }
{
    timkerzal::timkerzal_offered(block, states, marks, s, t, answer);
}

/// The shift mark of state s at token t.
#[unsafe(no_mangle)]
pub extern "C" fn timkerzal_shift(
    block: &[u32],
    states: usize,
    marks: &[u32],
    s: usize,
    t: usize,
    answer: &mut [u32; FOUND],
)
    ensures { answer.new ≡ found_words (query_of block.now states marks.now (tokens block.now) s t) }
{
    timkerzal::timkerzal_shift(block, states, marks, s, t, answer);
}

/// The goto of state s for a rule: the state and one more, 0 for none.
#[unsafe(no_mangle)]
pub extern "C" fn timkerzal_goto(
    block: &[u32],
    states: usize,
    gotos: &[u32],
    s: usize,
    rule: usize,
    answer: &mut [u32; FOUND],
)
    ensures { answer.new ≡ found_words (query_of block.now states gotos.now (rules block.now) s rule) }
{
    timkerzal::timkerzal_goto(block, states, gotos, s, rule, answer);
}

/// The core-reduce mark of state s for production p.
#[unsafe(no_mangle)]
pub extern "C" fn timkerzal_core(
    block: &[u32],
    states: usize,
    marks: &[u32],
    s: usize,
    p: usize,
    answer: &mut [u32; FOUND],
)
    ensures { answer.new ≡ found_words (query_of block.now states marks.now (prods block.now) s p) }
{
    timkerzal::timkerzal_core(block, states, marks, s, p, answer);
}

/// The reduce-only mark of state s.
#[unsafe(no_mangle)]
pub extern "C" fn timkerzal_only(
    block: &[u32],
    states: usize,
    marks: &[u32],
    s: usize,
    answer: &mut [u32; FOUND],
)
    ensures { answer.new ≡ found_words (query_of block.now states marks.now 1 s 0) }
{
    timkerzal::timkerzal_only(block, states, marks, s, answer);
}

/// The edge of state s on a symbol, 2r or 2t + 1: the state and one more, 0 for none.
#[unsafe(no_mangle)]
pub extern "C" fn timkerzal_edge(
    block: &[u32],
    states: usize,
    edges: &[u32],
    s: usize,
    x: usize,
    answer: &mut [u32; FOUND],
)
    ensures { answer.new ≡ found_words (query_of block.now states edges.now (rules block.now + tokens block.now) s (column_of block.now x)) }
{
    timkerzal::timkerzal_edge(block, states, edges, s, x, answer);
}
