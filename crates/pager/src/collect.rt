//! Collection (rule 7): the states that state 0 reaches are kept, renumbered in their order.
ghost use Rattle.std.specs.Prelude.{List, map, ◌≡◌, ℕ, ◌+◌, ◌*◌, ◌≤◌, ◌<◌, length, get_or, set, take, drop};
ghost use Rattle.std.proofs.Math.Seq.{paste};
ghost use Rattle.pager.specs.Place.{State};
ghost use Rattle.pager.specs.Collect.{reach_of, collect_of};
ghost use Rattle.pager.specs.Memory.{pad, edge_words};
ghost use Rattle.pager.specs.Held.{STATES};
ghost use Rattle.pager.specs.Collecting.{flags_of, RowReady, RowReached, EdgePart, ItemPart, Renumbered, Movable, number_in, Numbered, kept_by, ItemsLeft};
ghost use Rattle.pager.specs.Collecting.{Parts, Left};
ghost use Rattle.pager.specs.CollectWhole.{Whole, Built, Collected};

use crate::room::Count;
use block::limits::ITEM;

/// Marks state `to` and puts it on the stack, whose height is h.
fn push(marks: &mut [u32], h: usize, to: u32)
    requires { (2 * to + 1 < length marks.old) × (2 * h + 1 < length marks.old) }
    ensures { marks.new ≡ set (set marks.old (2 * to) 1) (2 * h + 1) to }
{
    marks[2 * to as usize] = 1;
    marks[2 * h + 1] = to;
}

/// Marks the targets of a row of edges, each new one put on the stack. Answers the stack's height.
fn reach_row(row: &[u32], marks: &mut [u32], height: usize) -> usize
    requires { RowReady row.now marks.old height }
    ensures { RowReached row.now marks.old height marks.new result }
{
    let mut h = height;
    for edge in row {
        if let Some(to) = edge.checked_sub(1) {
            if marks[2 * to as usize] == 0 {
                push(marks, h, to);
                h += 1;
            }
        }
    }
    h
}

/// The edges of state s.
fn row_of(edges: &[u32], width: usize, s: usize) -> &[u32]
    requires { s * width + width ≤ length edges.now }
    ensures { result.now ≡ take width (drop (s * width) edges.now) }
{
    let at = s * width;
    &edges[at..at + width]
}

/// Marks the states that state 0 reaches.
fn reach(edges: &[u32], width: usize, marks: &mut [u32])
    requires { (ss : List State) × EdgePart width ss edges.now marks.old }
    ensures { (ss : List State) → EdgePart width ss edges.now marks.old → flags_of marks.new ≡ reach_of ss }
{
    marks.fill(0); // no state is marked, and the stack's lowest place is state 0
    marks[0] = 1;
    let mut h = 1usize;
    // stays: a stack, to which each turn adds; no `for` is plainer
    while 0 < h {
        let s = marks[2 * h - 1] as usize;
        h = reach_row(row_of(edges, width, s), marks, h - 1);
    }
}

/// Turns each mark into the state's new number and one more.
fn renumber(marks: &mut [u32])
    requires { length marks.old ≤ 2 * STATES }
    ensures { Renumbered marks.old marks.new }
{
    let mut kept = 0u32;
    for s in 0..marks.len() / 2 {
        if marks[2 * s] != 0 {
            kept += 1;
            marks[2 * s] = kept;
        }
    }
}

/// Moves the rows of state s down to row `row`, and their span to state k. Answers how many they are.
fn move_state(items: &mut [u64], spans: &mut [u32], s: usize, k: usize, row: usize) -> usize
    requires { Movable items.old spans.old k row s }
    ensures items { items.new ≡ paste items.old (ITEM * row) (drop (ITEM * get_or spans.old (2 * s) 0) items.old) (ITEM * get_or spans.old (2 * s + 1) 0) }
    ensures spans { spans.new ≡ set (set spans.old (2 * k) row) (2 * k + 1) (get_or spans.old (2 * s + 1) 0) }
    ensures count { result ≡ get_or spans.old (2 * s + 1) 0 }
{
    let a = spans[2 * s] as usize;
    let m = spans[2 * s + 1];
    let n = m as usize;
    items.copy_within(ITEM * a..ITEM * (a + n), ITEM * row);
    spans[2 * k] = row as u32;
    spans[2 * k + 1] = m;
    n
}

/// The items of the marked states are moved down, and their spans. Answers how many states and items are kept.
fn pack_items(items: &mut [u64], spans: &mut [u32], marks: &[u32]) -> Count
    requires { (ss : List State) × ItemPart ss items.old spans.old marks.now }
    ensures { (ss : List State) → ItemPart ss items.old spans.old marks.now
        → ItemsLeft (kept_by marks.now ss) items.old spans.old result items.new spans.new }
{
    let mut k = 0usize;
    let mut row = 0usize;
    for s in 0..marks.len() / 2 {
        let p = 2 * s;
        if marks[p] != 0 {
            row += move_state(items, spans, s, k, row);
            k += 1;
        }
    }
    items[ITEM * row..].fill(0);
    spans[2 * k..].fill(0);
    Count {
        states: k,
        items: row,
    }
}

/// The new word of an edge word: the target's new number and one more, 0 for none.
#[tactic(auto, unfolding(crate::specs::Collecting::number_in))]
fn new_word(marks: &[u32], e: u32) -> u32
    requires { 2 * e ≤ length marks.now }
    ensures { result ≡ number_in marks.now e }
{
    match e.checked_sub(1) {
        Some(to) => marks[2 * to as usize],
        None => 0,
    }
}

/// Moves a row of n edges down, from place a to place b, with the targets' new numbers.
fn move_edges(edges: &mut [u32], a: usize, b: usize, n: usize, marks: &[u32])
    requires { (b ≤ a) × (a + n ≤ length edges.old) × ((i : ℕ) → i < n → 2 * get_or edges.old (a + i) 0 ≤ length marks.now) }
    ensures { edges.new ≡ paste edges.old b (map (number_in marks.now) (drop a edges.old)) n }
{
    for i in 0..n {
        edges[b + i] = new_word(marks, edges[a + i]);
    }
}

/// The edges of the marked states are moved down, with the targets' new numbers.
fn pack_edges(edges: &mut [u32], width: usize, marks: &[u32])
    requires { (ss : List State) × EdgePart width ss edges.old marks.now × Numbered ss marks.now }
    ensures { (ss : List State) → EdgePart width ss edges.old marks.now → Numbered ss marks.now
        → edges.new ≡ pad (length edges.old) (edge_words (kept_by marks.now ss)) }
{
    let mut to = 0usize;
    for s in 0..marks.len() / 2 {
        if marks[2 * s] != 0 {
            move_edges(edges, s * width, to, width, marks);
            to += width;
        }
    }
    edges[to..].fill(0);
}

/// Collection on the parts that hold the states.
fn collect_parts(
    items: &mut [u64],
    spans: &mut [u32],
    edges: &mut [u32],
    marks: &mut [u32],
    width: usize,
) -> Count
    requires { (ss : List State) × Parts width ss items.old spans.old edges.old marks.old }
    ensures { (ss : List State) → Parts width ss items.old spans.old edges.old marks.old
        → Left (collect_of ss) items.old spans.old edges.old marks.old result
        items.new spans.new edges.new marks.new }
{
    reach(edges, width, marks);
    renumber(marks);
    let count = pack_items(items, spans, marks);
    pack_edges(edges, width, marks);
    marks.fill(0); // no number is left
    count
}

/// Keeps the states that state 0 reaches; the marks, made and to be closed, are the room to work in.
pub fn collect_states(
    items: &mut [u64],
    spans: &mut [u32],
    edges: &mut [u32],
    marks: &mut [u32],
    count: Count,
    width: usize,
) -> Count
    requires { (v : Whole) × Built count width items.old spans.old edges.old marks.old v }
    ensures { (v : Whole) → Built count width items.old spans.old edges.old marks.old v
        → Collected result items.new spans.new edges.new marks.new v }
{
    let i = ITEM * count.items;
    let n = count.states;
    let e = n * width;
    collect_parts(
        &mut items[..i],
        &mut spans[..2 * n],
        &mut edges[..e],
        &mut marks[..2 * n],
        width,
    )
}
