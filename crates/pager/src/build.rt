//! The state graph before collection: states are closed in turn, and their goto kernels placed.
ghost use Rattle.std.specs.Prelude.{not, Ok, List, [], ◌∷◌, ◌≡◌, ℕ, suc, ◌+◌, ◌*◌, ◌^◌, ◌<◌, ◌≤◌, length, set, drop};
ghost use Rattle.block.specs.Limits.{ITEM};
ghost use Rattle.block.specs.Block.{tokens, rules, prods, symbols};
ghost use Rattle.block.specs.First.{firsts_of};
ghost use Rattle.itemset.specs.Close.{close_of};
ghost use Rattle.itemset.specs.Goto.{goto_of, gotos_of};
ghost use Rattle.pager.specs.Lists.{find, is, walk};
ghost use Rattle.pager.specs.Place.{State};
ghost use Rattle.pager.specs.Graph.{edge_at, place_edge, close_state, next_state, start_state, graph_of};
ghost use Rattle.pager.specs.Held.{STATES, Behind, limits_of, as_option};
ghost use Rattle.pager.specs.Building.{Scratch, BuiltBy, Marks, Site, ForGotos, ForGoto, ForState, Cleared};

use crate::place::{kernel_of, place};
use crate::refusal::GraphRefusal;
use crate::room::{Count, Room};
use block::limits::{DOTS, ITEM};
use block::{Firsts, Grammar, TokenSet};
use itemset::{close, goto_kernel, sights_of};

/// The first state from `from` on that is to be closed.
// stays: marks are words, two for each state (what it was made for, and 1 if it is to be closed), in room that the C interface lends.
fn marked_from(marks: &[u32], states: usize, from: usize) -> Option<usize>
    requires { 2 * states ≤ length marks.now }
    ensures { (N : ℕ) (ss : List State) (z : List ℕ) → Marks N ss z marks.now → states ≡ length ss
        → result ≡ as_option (find (λ st. not st.closed) from (drop from ss)) }
{
    for s in from..states {
        if marks[2 * s + 1] == 1 {
            return Some(s);
        }
    }
    None
}

/// The lowest state to be closed after the last one closed, else the lowest.
fn next_state(marks: &[u32], states: usize, last: usize) -> Option<usize>
    requires { (2 * states ≤ length marks.now) × (last < states) }
    ensures { (N : ℕ) (ss : List State) (z : List ℕ) → Marks N ss z marks.now → states ≡ length ss
        → result ≡ as_option (next_state last ss) }
{
    if let Some(s) = marked_from(marks, states, last + 1) {
        return Some(s);
    }
    marked_from(marks, states, 0)
}

/// Where the edge on symbol x stands in a state: rules before tokens.
fn edge_at(grammar: Grammar<'_>, x: usize) -> usize
    requires { x < 2 ^ 32 }
    ensures { result ≡ edge_at grammar.entry.words.now x }
{
    if x % 2 == 0 {
        x / 2
    } else {
        grammar.rules() + x / 2
    }
}

/// The edge of state n on symbol x leads to state `to`: its word is one more.
// stays: the C interface hands the edges out as words, a target as one more and 0 for none.
fn draw_edge(grammar: Grammar<'_>, n: usize, x: usize, to: usize, edges: &mut [u32])
    requires { (n < STATES) × (to < STATES) × (x < 2 ^ 32) × (n * (rules grammar.words.now + tokens grammar.words.now) + edge_at grammar.words.now x < length edges.old) }
    ensures { edges.new ≡ set edges.old (n * (rules grammar.entry.words.now + tokens grammar.entry.words.now) + edge_at grammar.entry.words.now x) (suc to) }
{
    let at = n * (grammar.rules() + grammar.tokens()) + edge_at(grammar, x);
    edges[at] = (to + 1) as u32;
}

/// The goto kernel of state n on symbol x, from its closed rows, is placed, and the edge drawn; the refusals are those of `place`.
fn place_edge(
    grammar: Grammar<'_>,
    n: usize,
    x: usize,
    closed: &[u64],
    kernel: &mut [u64],
    items: &mut [u64],
    spans: &mut [u32],
    edges: &mut [u32],
    marks: &mut [u32],
    room: Room,
    count: Count,
) -> Result<Count, GraphRefusal>
    requires { (s : Site) × ForGoto grammar.words.now room count n x closed.now kernel.old items.old spans.old edges.old marks.old s }
    ensures built { (s : Site) → ForGoto grammar.entry.words.now room count n x closed.now kernel.old items.old spans.old edges.old marks.old s
        → BuiltBy (place_edge grammar.entry.words.now (limits_of room) n s.states (x, goto_of grammar.entry.words.now (close_of grammar.entry.words.now (firsts_of grammar.entry.words.now) s.kernel) x))
        grammar.entry.words.now room result items.new spans.new edges.new marks.new s.behind }
    ensures kernel { Scratch (ITEM * symbols grammar.entry.words.now) kernel.old kernel.new }
{
    let k = goto_kernel(grammar, closed, x, kernel);
    let put = place(
        items,
        spans,
        marks,
        room,
        count,
        (x + 1) as u32,
        &kernel[..ITEM * k],
    )?;
    draw_edge(grammar, n, x, put.to, edges);
    Ok(put.count)
}

/// The goto kernels of state n, whose closed rows are given, are placed in order, as far as there is room.
fn place_all(
    grammar: Grammar<'_>,
    n: usize,
    closed: &[u64],
    kernel: &mut [u64],
    items: &mut [u64],
    spans: &mut [u32],
    edges: &mut [u32],
    marks: &mut [u32],
    room: Room,
    start: Count,
) -> Result<Count, GraphRefusal>
    requires { (s : Site) × ForGotos grammar.words.now room start n closed.now kernel.old items.old spans.old edges.old marks.old s }
    ensures built { (s : Site) → ForGotos grammar.entry.words.now room start n closed.now kernel.old items.old spans.old edges.old marks.old s
        → BuiltBy (walk (place_edge grammar.entry.words.now (limits_of room) n) s.states (gotos_of grammar.entry.words.now (close_of grammar.entry.words.now (firsts_of grammar.entry.words.now) s.kernel)))
        grammar.entry.words.now room result items.new spans.new edges.new marks.new s.behind }
    ensures kernel { Scratch (ITEM * symbols grammar.entry.words.now) kernel.old kernel.new }
{
    let sights = sights_of(grammar, closed);
    let mut count = start;
    for symbol in sights.as_slice() {
        let x = *symbol as usize;
        count = place_edge(
            grammar, n, x, closed, kernel, items, spans, edges, marks, room, count,
        )?;
    }
    Ok(count)
}

/// State n is closed: its goto kernels are placed in order, as far as there is room.
fn close_state(
    firsts: &Firsts<'_>,
    n: usize,
    closed: &mut [u64],
    kernel: &mut [u64],
    items: &mut [u64],
    spans: &mut [u32],
    edges: &mut [u32],
    marks: &mut [u32],
    room: Room,
    count: Count,
) -> Result<Count, GraphRefusal>
    requires { (ss : List State) × (z : Behind) × ForState firsts.now.grammar.words.now room count n closed.old kernel.old items.old spans.old edges.old marks.old ss z }
    ensures built { (ss : List State) (z : Behind) → ForState firsts.now.grammar.words.now room count n closed.old kernel.old items.old spans.old edges.old marks.old ss z
        → BuiltBy (close_state firsts.now.grammar.words.now (firsts_of firsts.now.grammar.words.now) (limits_of room) ss n)
        firsts.now.grammar.words.now room result items.new spans.new edges.new marks.new z }
    ensures closed { Scratch (ITEM * (symbols firsts.now.grammar.words.now + prods firsts.now.grammar.words.now)) closed.old closed.new }
    ensures kernel { Scratch (ITEM * symbols firsts.now.grammar.words.now) kernel.old kernel.new }
{
    marks[2 * n + 1] = 0;
    let rows = close(firsts, kernel_of(items, spans, n), closed);
    place_all(
        firsts.grammar,
        n,
        &closed[..ITEM * rows],
        kernel,
        items,
        spans,
        edges,
        marks,
        room,
        count,
    )
}

/// The first state: the start production, dot 0, with the end token.
fn begin(
    grammar: Grammar<'_>,
    room: Room,
    items: &mut [u64],
    spans: &mut [u32],
    marks: &mut [u32],
) -> Count
    requires { (edges closed kernel : List ℕ) × (z : Behind) × Cleared grammar.words.now room items.old spans.old edges marks.old closed kernel z }
    ensures { (edges closed kernel : List ℕ) (z : Behind) → Cleared grammar.entry.words.now room items.old spans.old edges marks.old closed kernel z
        → BuiltBy (is (start_state grammar.entry.words.now ∷ [])) grammar.entry.words.now room (Ok result) items.new spans.new edges marks.new z }
{
    let start = grammar.start();
    let end = grammar.end();
    items[0] = (DOTS * start) as u64;
    TokenSet::empty().with(end).store(items, 1);
    spans[1] = 1;
    marks[1] = 1;
    Count {
        states: 1,
        items: 1,
    }
}

/// The graph of a good block, where all named room is zero: states are closed until none is left, or there is no room for one more,
/// or for its items.
pub fn build_graph(
    firsts: &Firsts<'_>,
    room: Room,
    items: &mut [u64],
    spans: &mut [u32],
    edges: &mut [u32],
    marks: &mut [u32],
    closed: &mut [u64],
    kernel: &mut [u64],
) -> Result<Count, GraphRefusal>
    requires { (z : Behind) × Cleared firsts.now.grammar.words.now room items.old spans.old edges.old marks.old closed.old kernel.old z }
    ensures built { (z : Behind) → Cleared firsts.now.grammar.words.now room items.old spans.old edges.old marks.old closed.old kernel.old z
        → BuiltBy (graph_of firsts.now.grammar.words.now (firsts_of firsts.now.grammar.words.now) (limits_of room))
        firsts.now.grammar.words.now room result items.new spans.new edges.new marks.new z }
    ensures closed { Scratch (ITEM * (symbols firsts.now.grammar.words.now + prods firsts.now.grammar.words.now)) closed.old closed.new }
    ensures kernel { Scratch (ITEM * symbols firsts.now.grammar.words.now) kernel.old kernel.new }
{
    let mut count = begin(firsts.grammar, room, items, spans, marks);
    let mut last = 0usize;
    while let Some(s) = next_state(marks, count.states, last) {
        count = close_state(
            firsts, s, closed, kernel, items, spans, edges, marks, room, count,
        )?;
        last = s;
    }
    Ok(count)
}
