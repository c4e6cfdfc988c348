//! The list of graphs.
ghost use Rattle.std.specs.Prelude.{true, [], ◌++◌, ◌↔◌, ◌≡◌, length};
ghost use Rattle.words.specs.Given.{as_part};
ghost use Rattle.words.specs.Parts.{behind_of};
ghost use Rattle.pager.specs.Call.{answer_of};
ghost use Rattle.pager.specs.Call as call;
ghost use Rattle.listed_pager.specs.Cases.{numbers, GraphSeen, LentCase, GraphCase};

use crate::work::{lent, work_holds, work_of};
use listed_block::rooms::{BLOCK, ROOM, bounded};
use pager::{GraphRefusal, Kept, graph};
use words::{begins, behind, behind_three, given, index, numbers_begin};

/// What a case gives besides the block.
#[derive(Clone, Copy, Debug, PartialEq, Eq)]
struct Asked {
    /// S states, I kernel items at most, and the fill.
    states: usize,
    most: usize,
    fill: u32,
}

/// [items] [spans] [edges]
pub fn graph_begins(expected: &[u64], items: &[u64], spans: &[u32], edges: &[u32]) -> bool
    ensures { (result ≡ true) ↔ (expected.now ≡ as_part items.now ++ (as_part spans.now ++ (as_part edges.now ++ behind_of (behind_of (behind_of expected.now))))) }
{
    if !begins(expected, items) {
        return false;
    }
    let next = behind(expected);
    if !begins(next, spans) {
        return false;
    }
    begins(behind(next), edges)
}

/// [items] [spans] [edges], and nothing behind them
fn buffers_hold(expected: &[u64], items: &[u64], spans: &[u32], edges: &[u32]) -> bool
    ensures { (result ≡ true) ↔ (expected.now ≡ as_part items.now ++ (as_part spans.now ++ (as_part edges.now ++ []))) }
{
    if !graph_begins(expected, items, spans, edges) {
        return false;
    }
    behind_three(expected).len() == 0
}

/// number  states items before. Their count is told since lending the array needs it.
fn numbers_of(answer: Result<Kept, GraphRefusal>) -> [u64; 4]
    ensures numbers { result ≡ numbers (answer_of answer) }
    ensures count { 4 ≡ length result }
{
    match answer {
        Ok(kept) => [0, kept.states as u64, kept.items as u64, kept.before as u64],
        Err(refusal) => [u64::from(refusal.number()), 0, 0, 0],
    }
}

/// number  states items before  [items] [spans] [edges]
// stays: the parameters are those of `graph`, whose buffers the C interface lends one by one.
fn call_holds(
    block: &[u32],
    given: Asked,
    expected: &[u64],
    items: &mut [u64],
    spans: &mut [u32],
    edges: &mut [u32],
    marks: &mut [u32],
    closed: &mut [u64],
    kernel: &mut [u64],
) -> bool
    ensures { (result ≡ true) ↔ GraphSeen block.now (call.named given.states given.most) given.fill
        (call.lent items.old spans.old edges.old marks.old closed.old kernel.old)
        expected.now }
{
    let answer = graph(
        block,
        given.states,
        given.most,
        items,
        spans,
        edges,
        marks,
        closed,
        kernel,
    );
    let numbers = numbers_of(answer);
    if expected.len() < 4 {
        return false;
    }
    if !numbers_begin(expected, &numbers) {
        return false;
    }
    if !buffers_hold(&expected[4..], items, spans, edges) {
        return false;
    }
    let work = work_of(block, given.states);
    work_holds(expected[0], work, given.fill, marks, closed, kernel)
}

/// lengths: items spans edges  → number ..
fn lent_holds(block: &[u32], given: Asked, rest: &[u64]) -> bool
    ensures { (result ≡ true) ↔ LentCase block.now (call.named given.states given.most) given.fill rest.now }
{
    if rest.len() < 3 {
        return false;
    }
    let fill = given.fill;
    let wide = fill as u64;
    let work = work_of(block, given.states);
    if ROOM < work.closed {
        return false;
    }
    let mut items = [wide; ROOM];
    let mut spans = [fill; ROOM];
    let mut edges = [fill; ROOM];
    let mut marks = [fill; ROOM];
    let mut closed = [wide; ROOM];
    let mut kernel = [wide; ROOM];
    call_holds(
        block,
        given,
        &rest[3..],
        &mut items[..bounded(index(rest[0]))],
        &mut spans[..bounded(index(rest[1]))],
        &mut edges[..bounded(index(rest[2]))],
        &mut marks[..lent(work.marks)],
        &mut closed[..lent(work.closed)],
        &mut kernel[..lent(work.kernel)],
    )
}

/// [block] S I fill  lengths: items spans edges  → number  states items before  [items] [spans] [edges]
// Not inlined, so that its rooms stand in no other frame (docs/DECISIONS.md, 67).
#[inline(never)]
pub fn graph_holds(words: &[u64]) -> bool
    ensures { (result ≡ true) ↔ GraphCase words.now }
{
    let mut room = [0u32; BLOCK];
    let Some((block, rest)) = given(words, &mut room) else {
        return false;
    };
    if rest.len() < 3 {
        return false;
    }
    let Ok(fill) = u32::try_from(rest[2]) else {
        return false;
    };
    let given = Asked {
        states: index(rest[0]),
        most: index(rest[1]),
        fill,
    };
    lent_holds(block, given, &rest[3..])
}
